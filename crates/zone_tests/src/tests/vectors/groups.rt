//! Addresses of IPv6 and their short text (RFC 4291 2.2, RFC 5952 4).

pub(super) const FILES: &str = "\
== mx_and_mapped_address_are_shortened x.
@ 60 SOA n h 1 2 3 4 5
@ 60 MX 010 M
v 60 AAAA ::FFFF:10.0.0.1
=>
x. 60 IN SOA n.x. h.x. 1 2 3 4 5
x. 60 IN MX 10 m.x.
v.x. 60 IN AAAA ::ffff:a00:1
== mx_and_mapped_address_are_shortened_class_written x.
@ 60 IN SOA n h 1 2 3 4 5
@ 60 IN MX 010 M
v 60 IN AAAA ::FFFF:10.0.0.1
=>
x. 60 IN SOA n.x. h.x. 1 2 3 4 5
x. 60 IN MX 10 m.x.
v.x. 60 IN AAAA ::ffff:a00:1
== older_text_with_eight_groups_gives_the_short_form x.
x. 60 IN SOA n.x. h.x. 1 2 3 4 5
x. 60 IN MX 10 m.x.
v.x. 60 IN AAAA 0:0:0:0:0:ffff:a00:1
=>
x. 60 IN SOA n.x. h.x. 1 2 3 4 5
x. 60 IN MX 10 m.x.
v.x. 60 IN AAAA ::ffff:a00:1
== older_text_with_eight_groups_is_the_same_zone x.
x. 60 IN SOA n.x. h.x. 1 2 3 4 5
x. 60 IN MX 10 m.x.
v.x. 60 IN AAAA 0:0:0:0:0:ffff:a00:1
=>
x. 60 IN SOA n.x. h.x. 1 2 3 4 5
x. 60 IN MX 10 m.x.
v.x. 60 IN AAAA ::ffff:a00:1
== all_groups_zero x.
@ 60 SOA n h 1 2 3 4 5
v 60 AAAA 0:0:0:0:0:0:0:0
=>
x. 60 IN SOA n.x. h.x. 1 2 3 4 5
v.x. 60 IN AAAA ::
== seven_trailing_zero_groups x.
@ 60 SOA n h 1 2 3 4 5
v 60 AAAA 1:0:0:0:0:0:0:0
=>
x. 60 IN SOA n.x. h.x. 1 2 3 4 5
v.x. 60 IN AAAA 1::
== first_of_equal_runs_is_shortened x.
@ 60 SOA n h 1 2 3 4 5
v 60 AAAA 0:0:0:1:0:0:0:1
=>
x. 60 IN SOA n.x. h.x. 1 2 3 4 5
v.x. 60 IN AAAA ::1:0:0:0:1
== longest_run_is_shortened x.
@ 60 SOA n h 1 2 3 4 5
v 60 AAAA 1:0:0:2:0:0:0:3
=>
x. 60 IN SOA n.x. h.x. 1 2 3 4 5
v.x. 60 IN AAAA 1:0:0:2::3
== single_zero_group_is_kept x.
@ 60 SOA n h 1 2 3 4 5
v 60 AAAA 1:0:2:3:4:5:6:7
=>
x. 60 IN SOA n.x. h.x. 1 2 3 4 5
v.x. 60 IN AAAA 1:0:2:3:4:5:6:7
== shortened_single_zero_group_is_written_out x.
@ 60 SOA n h 1 2 3 4 5
v 60 AAAA 1::2:3:4:5:6:7
=>
x. 60 IN SOA n.x. h.x. 1 2 3 4 5
v.x. 60 IN AAAA 1:0:2:3:4:5:6:7
== run_of_two_at_the_end x.
@ 60 SOA n h 1 2 3 4 5
v 60 AAAA 0:1:2:3:4:5:0:0
=>
x. 60 IN SOA n.x. h.x. 1 2 3 4 5
v.x. 60 IN AAAA 0:1:2:3:4:5::
== leading_zeros_and_upper_case_of_groups x.
@ 60 SOA n h 1 2 3 4 5
v 60 AAAA 2001:0DB8::0001
=>
x. 60 IN SOA n.x. h.x. 1 2 3 4 5
v.x. 60 IN AAAA 2001:db8::1
== two_colons_for_the_last_group x.
@ 60 SOA n h 1 2 3 4 5
v 60 AAAA 1:2:3:4:5:6:7::
=>
x. 60 IN SOA n.x. h.x. 1 2 3 4 5
v.x. 60 IN AAAA 1:2:3:4:5:6:7:0
== two_colons_for_the_first_group x.
@ 60 SOA n h 1 2 3 4 5
v 60 AAAA ::2:3:4:5:6:7:8
=>
x. 60 IN SOA n.x. h.x. 1 2 3 4 5
v.x. 60 IN AAAA 0:2:3:4:5:6:7:8
== six_groups_and_four_decimal_numbers x.
@ 60 SOA n h 1 2 3 4 5
v 60 AAAA 1:2:3:4:5:6:010.0.0.1
=>
x. 60 IN SOA n.x. h.x. 1 2 3 4 5
v.x. 60 IN AAAA 1:2:3:4:5:6:a00:1
== run_of_two_in_the_middle x.
@ 60 SOA n h 1 2 3 4 5
v 60 AAAA 1:2:0:0:3:4:5:6
=>
x. 60 IN SOA n.x. h.x. 1 2 3 4 5
v.x. 60 IN AAAA 1:2::3:4:5:6
== two_colons_beside_eight_groups x.
@ 60 SOA n h 1 2 3 4 5
v 60 AAAA 1:2:3:4:5:6:7::8
=> F9 BadRdata at line 2
== two_colons_twice x.
@ 60 SOA n h 1 2 3 4 5
v 60 AAAA 1::2::3
=> F9 BadRdata at line 2
== group_of_five_digits x.
@ 60 SOA n h 1 2 3 4 5
v 60 AAAA 12345::
=> F9 BadRdata at line 2
== three_colons x.
@ 60 SOA n h 1 2 3 4 5
v 60 AAAA :::
=> F9 BadRdata at line 2
== seven_groups x.
@ 60 SOA n h 1 2 3 4 5
v 60 AAAA 1:2:3:4:5:6:7
=> F9 BadRdata at line 2
== decimal_number_over_255_in_an_address_of_groups x.
@ 60 SOA n h 1 2 3 4 5
v 60 AAAA ::ffff:10.0.0.256
=> F9 BadRdata at line 2
== decimal_numbers_before_a_group x.
@ 60 SOA n h 1 2 3 4 5
v 60 AAAA ::10.0.0.1:1
=> F9 BadRdata at line 2
== address_of_groups_in_quotes x.
@ 60 SOA n h 1 2 3 4 5
v 60 AAAA \"::1\"
=> F9 BadRdata at line 2
== generic_address_of_sixteen_octets x.
@ 60 SOA n h 1 2 3 4 5
v 60 AAAA \\# 16 20010db8000000000000000000000001
=>
x. 60 IN SOA n.x. h.x. 1 2 3 4 5
v.x. 60 IN AAAA 2001:db8::1
";
