//! Words, order and escapes of the canonical text (RFC 3597 5, RFC 4034 6).

pub(super) const FILES: &str = "\
== class_number_is_printed_as_its_word x.
@ 60 CLASS4 SOA n h 1 2 3 4 5
=>
x. 60 HS SOA n.x. h.x. 1 2 3 4 5
== class_two_is_cs x.
@ 60 cs SOA n h 1 2 3 4 5
@ TYPE2 n
=>
x. 60 CS SOA n.x. h.x. 1 2 3 4 5
x. 60 CS NS n.x.
== each_name_type_is_printed x.
@ 60 SOA n h 1 2 3 4 5
c 60 TYPE5 N
p 60 PTR n
m 60 mx 0 .
=>
x. 60 IN SOA n.x. h.x. 1 2 3 4 5
c.x. 60 IN CNAME n.x.
m.x. 60 IN MX 0 .
p.x. 60 IN PTR n.x.
== records_of_one_owner_are_sorted_by_type_number x.
@ 60 SOA n h 1 2 3 4 5
a 60 AAAA ::1
a 60 TXT t
a 60 MX 1 m
a 60 NS n
a 60 A 10.0.0.1
=>
x. 60 IN SOA n.x. h.x. 1 2 3 4 5
a.x. 60 IN A 10.0.0.1
a.x. 60 IN NS n.x.
a.x. 60 IN MX 1 m.x.
a.x. 60 IN TXT \"t\"
a.x. 60 IN AAAA ::1
== octets_of_txt_are_escaped x.
@ 60 SOA n h 1 2 3 4 5
t 60 TXT \"\\\"\\\\\\000\\031 ~\\127\\255;($@.\"
=>
x. 60 IN SOA n.x. h.x. 1 2 3 4 5
t.x. 60 IN TXT \"\\\"\\\\\\000\\031 ~\\127\\255;($@.\"
";
