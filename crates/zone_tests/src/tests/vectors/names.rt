//! Owners of every spelling, their limits and their order (RFC 1035 5.1, RFC 4034 6.1).

pub(super) const FILES: &str = "\
== escaped_dot_and_decimal_escape_are_one_record x.
@ 60 SOA n h 1 2 3 4 5
a\\046b 60 A 10.0.0.1
a\\.B 60 A 10.0.0.1
=>
x. 60 IN SOA n.x. h.x. 1 2 3 4 5
a\\.b.x. 60 IN A 10.0.0.1
== owners_are_sorted_from_the_rightmost_label x.
@ 60 SOA n h 1 2 3 4 5
a.b 60 A 10.0.0.1
b 60 A 10.0.0.1
* 60 A 10.0.0.1
\\000 60 A 10.0.0.1
=>
x. 60 IN SOA n.x. h.x. 1 2 3 4 5
\\000.x. 60 IN A 10.0.0.1
*.x. 60 IN A 10.0.0.1
b.x. 60 IN A 10.0.0.1
a.b.x. 60 IN A 10.0.0.1
== owners_of_ns_records_are_sorted_from_the_rightmost_label x.
@ 60 IN SOA n h 1 2 3 4 5
a.b 60 IN NS n
b 60 IN NS n
* 60 IN NS n
\\000 60 IN NS n
=>
x. 60 IN SOA n.x. h.x. 1 2 3 4 5
\\000.x. 60 IN NS n.x.
*.x. 60 IN NS n.x.
b.x. 60 IN NS n.x.
a.b.x. 60 IN NS n.x.
== words_that_look_special_are_owner_names x.
@ 60 SOA n h 1 2 3 4 5
\\$origin 60 A 10.0.0.1
\\@ 60 A 10.0.0.1
# 60 A 10.0.0.1
a\\032b 60 A 10.0.0.1
=>
x. 60 IN SOA n.x. h.x. 1 2 3 4 5
#.x. 60 IN A 10.0.0.1
\\$origin.x. 60 IN A 10.0.0.1
\\@.x. 60 IN A 10.0.0.1
a\\032b.x. 60 IN A 10.0.0.1
== empty_label_in_an_owner x.
@ 60 SOA n h 1 2 3 4 5
a..b 60 A 10.0.0.1
=> F1 EmptyLabel at line 2
== label_of_64_octets_in_an_owner x.
@ 60 SOA n h 1 2 3 4 5
aaaaaaaaaaaaaaaaaaaaaaaaaaaaaaaaaaaaaaaaaaaaaaaaaaaaaaaaaaaaaaaa 60 A 10.0.0.1
=> F2 LabelTooLong at line 2
== owner_too_long_under_the_origin x.
@ 60 SOA n h 1 2 3 4 5
aaaaaaaaaaaaaaaaaaaaaaaaaaaaaaaaaaaaaaaaaaaaaaaaaaaaaaaaaaaaaaa.aaaaaaaaaaaaaaaaaaaaaaaaaaaaaaaaaaaaaaaaaaaaaaaaaaaaaaaaaaaaaaa.aaaaaaaaaaaaaaaaaaaaaaaaaaaaaaaaaaaaaaaaaaaaaaaaaaaaaaaaaaaaaaa.aaaaaaaaaaaaaaaaaaaaaaaaaaaaaaaaaaaaaaaaaaaaaaaaaaaaaaaaaaaaa 60 A 10.0.0.1
=> F3 NameTooLong at line 2
";
