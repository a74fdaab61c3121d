//! Equal records, the TTLs of a set, two SOA records, and owners outside the zone (RFC 2181 5, RFC
//! 1035 5.2).

pub(super) const FILES: &str = "\
== ttl_differs_inside_a_set x.
@ 60 SOA n h 1 2 3 4 5
a 300 A 10.0.0.1
a 600 A 10.0.0.2
=> F41 DifferingTtl at line 3
== equal_records_are_one x.
@ 60 SOA n h 1 2 3 4 5
a 300 A 10.0.0.1
a 300 A 10.0.0.1
=>
x. 60 IN SOA n.x. h.x. 1 2 3 4 5
a.x. 300 IN A 10.0.0.1
== least_owner_outside_the_zone_is_named x.
@ 60 SOA n h 1 2 3 4 5
b.y. 60 A 10.0.0.1
y. 60 A 10.0.0.1
=> F43 OutOfZone y. in the input
== least_owner_outside_the_zone_is_named_for_ns_records x.
@ 60 IN SOA n h 1 2 3 4 5
b.y. 60 IN NS n
y. 60 IN NS n
=> F43 OutOfZone y. in the input
== second_soa_with_another_serial x.
@ 60 SOA n h 1 2 3 4 5
x. 60 SOA n h 2 2 3 4 5
=> F40 MultipleSoa at line 2
== second_soa_with_another_ttl x.
@ 60 SOA n h 1 2 3 4 5
x. 61 SOA n h 1 2 3 4 5
=> F41 DifferingTtl at line 2
== differing_ttl_before_a_later_unclosed_quote x.
@ 60 SOA n h 1 2 3 4 5
a 60 A 10.0.0.1
a 61 A 10.0.0.1
b 60 TXT \"
=> F41 DifferingTtl at line 3
== signatures_have_one_set_for_each_type_covered x.
@ 60 SOA n h 1 2 3 4 5
a 300 TYPE46 \\# 3 000100
a 600 TYPE46 \\# 3 000200
=>
x. 60 IN SOA n.x. h.x. 1 2 3 4 5
a.x. 300 IN TYPE46 \\# 3 000100
a.x. 600 IN TYPE46 \\# 3 000200
== signatures_of_one_type_covered_need_one_ttl x.
@ 60 SOA n h 1 2 3 4 5
a 300 TYPE46 \\# 3 000100
a 600 TYPE46 \\# 3 000200
a 300 TYPE46 \\# 3 000201
=> F41 DifferingTtl at line 4
== signatures_have_one_set_for_each_type_covered_class_written x.
@ 60 IN SOA n h 1 2 3 4 5
a 300 IN TYPE46 \\# 3 000100
a 600 IN TYPE46 \\# 3 000200
=>
x. 60 IN SOA n.x. h.x. 1 2 3 4 5
a.x. 300 IN TYPE46 \\# 3 000100
a.x. 600 IN TYPE46 \\# 3 000200
== signatures_of_one_type_covered_need_one_ttl_class_written x.
@ 60 IN SOA n h 1 2 3 4 5
a 300 IN TYPE46 \\# 3 000100
a 600 IN TYPE46 \\# 3 000200
a 300 IN TYPE46 \\# 3 000201
=> F41 DifferingTtl at line 4
== second_soa_with_another_owner x.
@ 60 SOA n h 1 2 3 4 5
a 60 SOA n h 1 2 3 4 5
=> F40 MultipleSoa at line 2
== other_class_before_second_soa_and_ttl x.
@ 60 SOA n h 1 2 3 4 5
x. 61 CH SOA n h 2 2 3 4 5
=> F39 ClassMismatch at line 2
== second_soa_before_its_ttl x.
@ 60 SOA n h 1 2 3 4 5
x. 61 SOA n h 2 2 3 4 5
=> F40 MultipleSoa at line 2
== signature_data_shorter_than_its_type_covered x.
@ 60 SOA n h 1 2 3 4 5
a 300 TYPE46 \\# 1 00
a 600 TYPE46 \\# 0
=>
x. 60 IN SOA n.x. h.x. 1 2 3 4 5
a.x. 600 IN TYPE46 \\# 0
a.x. 300 IN TYPE46 \\# 1 00
== missing_soa_before_an_owner_outside x.
a. 60 IN NS n
b. 60 IN NS n
=> F42 NoSoa in the input
== owner_outside_is_told_with_its_escapes x.
@ 60 SOA n h 1 2 3 4 5
A\\.b\\000\\\".y. 60 NS n
=> F43 OutOfZone a\\.b\\000\\\".y. in the input
";
