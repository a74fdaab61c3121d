//! Data of each form, classes, types, numbers and times (RFC 1035 3.3, RFC 3597 5).

pub(super) const FILES: &str = "\
== generic_and_plain_address_are_one_record x.
@ 60 SOA n h 1 2 3 4 5
k 60 A \\# 4 0A000001
k 60 TYPE1 10.0.0.1
k 60 a \\# 4 0a00 0001
=>
x. 60 IN SOA n.x. h.x. 1 2 3 4 5
k.x. 60 IN A 10.0.0.1
== generic_and_plain_address_are_one_record_class_written x.
@ 60 IN SOA n h 1 2 3 4 5
k 60 IN A \\# 4 0A000001
k 60 IN TYPE1 10.0.0.1
k 60 IN a \\# 4 0a00 0001
=>
x. 60 IN SOA n.x. h.x. 1 2 3 4 5
k.x. 60 IN A 10.0.0.1
== generic_address_of_three_octets x.
@ 60 SOA n h 1 2 3 4 5
k 60 A \\# 3 0A0000
=> F9 BadRdata at line 2
== generic_address_of_three_octets_class_written x.
@ 60 IN SOA n h 1 2 3 4 5
k 60 IN A \\# 3 0A0000
=> F9 BadRdata at line 2
== generic_length_does_not_match x.
@ 60 SOA n h 1 2 3 4 5
k 60 A \\# 4 0A0000
=> F10 BadGeneric at line 2
== generic_length_does_not_match_class_written x.
@ 60 IN SOA n h 1 2 3 4 5
k 60 IN A \\# 4 0A0000
=> F10 BadGeneric at line 2
== generic_name_server_is_printed_as_a_name x.
@ 60 SOA n h 1 2 3 4 5
@ 60 NS \\# 5 014e015800
=>
x. 60 IN SOA n.x. h.x. 1 2 3 4 5
x. 60 IN NS n.x.
== generic_name_server_is_printed_as_a_name_class_written x.
@ 60 IN SOA n h 1 2 3 4 5
@ 60 IN NS \\# 5 014e015800
=>
x. 60 IN SOA n.x. h.x. 1 2 3 4 5
x. 60 IN NS n.x.
== txt_strings_keep_their_case_and_division x.
@ 60 SOA n h 1 2 3 4 5
t 60 TXT \"ab\"
t 60 TXT \"a\" \"b\"
t 60 TXT a
t 60 TXT A
=>
x. 60 IN SOA n.x. h.x. 1 2 3 4 5
t.x. 60 IN TXT \"A\"
t.x. 60 IN TXT \"a\"
t.x. 60 IN TXT \"a\" \"b\"
t.x. 60 IN TXT \"ab\"
== bare_txt_strings_keep_their_case_and_division x.
@ 60 IN SOA n h 1 2 3 4 5
t 60 IN TXT ab
t 60 IN TXT a b
t 60 IN TXT a
t 60 IN TXT A
=>
x. 60 IN SOA n.x. h.x. 1 2 3 4 5
t.x. 60 IN TXT \"A\"
t.x. 60 IN TXT \"a\"
t.x. 60 IN TXT \"a\" \"b\"
t.x. 60 IN TXT \"ab\"
== unknown_class_and_type_are_kept_as_octets example.
@ 60 CLASS32 SOA . . 0 0 0 0 0
b.example. CLASS32 TYPE731 \\# 6 abcd ( ef 01 23 45 )
c TYPE731 \\# 0
=>
example. 60 CLASS32 SOA . . 0 0 0 0 0
b.example. 60 CLASS32 TYPE731 \\# 6 abcdef012345
c.example. 60 CLASS32 TYPE731 \\# 0
== record_of_another_class_is_refused example.
@ 60 CLASS32 SOA . . 0 0 0 0 0
b.example. CLASS32 TYPE731 \\# 6 abcd ( ef 01 23 45 )
c TYPE731 \\# 0
d IN A 10.0.0.1
=> F39 ClassMismatch at line 4
== unknown_class_and_type_with_ttl_and_class_written example.
@ 60 CLASS32 SOA . . 0 0 0 0 0
b.example. 60 CLASS32 TYPE731 \\# 6 abcd ef 01 23 45
c 60 CLASS32 TYPE731 \\# 0
=>
example. 60 CLASS32 SOA . . 0 0 0 0 0
b.example. 60 CLASS32 TYPE731 \\# 6 abcdef012345
c.example. 60 CLASS32 TYPE731 \\# 0
== record_of_another_class_is_refused_with_ttl_and_class_written example.
@ 60 CLASS32 SOA . . 0 0 0 0 0
b.example. 60 CLASS32 TYPE731 \\# 6 abcd ef 01 23 45
c 60 CLASS32 TYPE731 \\# 0
d 60 IN A 10.0.0.1
=> F39 ClassMismatch at line 4
== mx_preference_over_65535 x.
@ 60 SOA n h 1 2 3 4 5
@ 60 MX 65536 m
=> F13 BadNumber at line 2
== mx_preference_over_65535_class_written x.
@ 60 IN SOA n h 1 2 3 4 5
@ 60 IN MX 65536 m
=> F13 BadNumber at line 2
== address_data_of_class_ch_stays_generic x.
@ 60 CH SOA n h 1 2 3 4 5
a 60 CH A \\# 4 0a000001
=>
x. 60 CH SOA n.x. h.x. 1 2 3 4 5
a.x. 60 CH TYPE1 \\# 4 0a000001
== dotted_address_in_class_ch_is_refused x.
@ 60 CH SOA n h 1 2 3 4 5
a 60 CH A 10.0.0.1
=> F10 BadGeneric at line 2
== quoted_generic_mark_is_a_string x.
@ 60 SOA n h 1 2 3 4 5
t 60 TXT \"\\#\" 2 0161
=>
x. 60 IN SOA n.x. h.x. 1 2 3 4 5
t.x. 60 IN TXT \"#\" \"2\" \"0161\"
== generic_txt_data_is_one_string x.
@ 60 SOA n h 1 2 3 4 5
t 60 TXT \\# 2 0161
=>
x. 60 IN SOA n.x. h.x. 1 2 3 4 5
t.x. 60 IN TXT \"a\"
== escaped_number_sign_is_a_string x.
@ 60 SOA n h 1 2 3 4 5
t 60 TXT \\035
=>
x. 60 IN SOA n.x. h.x. 1 2 3 4 5
t.x. 60 IN TXT \"#\"
== escaped_number_sign_is_a_name x.
@ 60 SOA n h 1 2 3 4 5
@ 60 NS \\035
=>
x. 60 IN SOA n.x. h.x. 1 2 3 4 5
x. 60 IN NS #.x.
== generic_mark_alone_for_a_name x.
@ 60 SOA n h 1 2 3 4 5
@ 60 NS \\#
=> F10 BadGeneric at line 2
== address_with_leading_zeros x.
@ 60 SOA n h 1 2 3 4 5
k 60 A 010.000.00.001
=>
x. 60 IN SOA n.x. h.x. 1 2 3 4 5
k.x. 60 IN A 10.0.0.1
== address_missing x.
@ 60 SOA n h 1 2 3 4 5
k 60 A
=> F9 BadRdata at line 2
== address_with_an_item_left_over x.
@ 60 SOA n h 1 2 3 4 5
k 60 A 10.0.0.1 10.0.0.2
=> F9 BadRdata at line 2
== address_in_quotes x.
@ 60 SOA n h 1 2 3 4 5
k 60 A \"10.0.0.1\"
=> F9 BadRdata at line 2
== address_of_three_numbers x.
@ 60 SOA n h 1 2 3 4 5
k 60 A 10.0.0
=> F9 BadRdata at line 2
== address_number_over_255 x.
@ 60 SOA n h 1 2 3 4 5
k 60 A 10.0.0.256
=> F9 BadRdata at line 2
== txt_without_a_string x.
@ 60 SOA n h 1 2 3 4 5
t 60 TXT
=> F9 BadRdata at line 2
== txt_string_of_256_octets x.
@ 60 SOA n h 1 2 3 4 5
t 60 TXT \"aaaaaaaaaaaaaaaaaaaaaaaaaaaaaaaaaaaaaaaaaaaaaaaaaaaaaaaaaaaaaaaaaaaaaaaaaaaaaaaaaaaaaaaaaaaaaaaaaaaaaaaaaaaaaaaaaaaaaaaaaaaaaaaaaaaaaaaaaaaaaaaaaaaaaaaaaaaaaaaaaaaaaaaaaaaaaaaaaaaaaaaaaaaaaaaaaaaaaaaaaaaaaaaaaaaaaaaaaaaaaaaaaaaaaaaaaaaaaaaaaaaaaaaaaaaaaaaa\"
=> F11 StringTooLong at line 2
== txt_string_of_255_octets x.
@ 60 SOA n h 1 2 3 4 5
t 60 TXT aaaaaaaaaaaaaaaaaaaaaaaaaaaaaaaaaaaaaaaaaaaaaaaaaaaaaaaaaaaaaaaaaaaaaaaaaaaaaaaaaaaaaaaaaaaaaaaaaaaaaaaaaaaaaaaaaaaaaaaaaaaaaaaaaaaaaaaaaaaaaaaaaaaaaaaaaaaaaaaaaaaaaaaaaaaaaaaaaaaaaaaaaaaaaaaaaaaaaaaaaaaaaaaaaaaaaaaaaaaaaaaaaaaaaaaaaaaaaaaaaaaaaaaaaaaaaaa
=>
x. 60 IN SOA n.x. h.x. 1 2 3 4 5
t.x. 60 IN TXT \"aaaaaaaaaaaaaaaaaaaaaaaaaaaaaaaaaaaaaaaaaaaaaaaaaaaaaaaaaaaaaaaaaaaaaaaaaaaaaaaaaaaaaaaaaaaaaaaaaaaaaaaaaaaaaaaaaaaaaaaaaaaaaaaaaaaaaaaaaaaaaaaaaaaaaaaaaaaaaaaaaaaaaaaaaaaaaaaaaaaaaaaaaaaaaaaaaaaaaaaaaaaaaaaaaaaaaaaaaaaaaaaaaaaaaaaaaaaaaaaaaaaaaaaaaaaaaaa\"
== opaque_data_without_the_generic_mark x.
@ 60 SOA n h 1 2 3 4 5
k 60 TYPE731 00
=> F10 BadGeneric at line 2
== opaque_data_missing x.
@ 60 SOA n h 1 2 3 4 5
k 60 TYPE731
=> F10 BadGeneric at line 2
== generic_length_missing x.
@ 60 SOA n h 1 2 3 4 5
k 60 TYPE731 \\#
=> F10 BadGeneric at line 2
== generic_length_over_65535 x.
@ 60 SOA n h 1 2 3 4 5
k 60 TYPE731 \\# 65536 0
=> F12 RdataTooLong at line 2
== generic_digits_of_odd_length x.
@ 60 SOA n h 1 2 3 4 5
k 60 TYPE731 \\# 2 000 0
=> F10 BadGeneric at line 2
== generic_digits_in_quotes x.
@ 60 SOA n h 1 2 3 4 5
k 60 TYPE731 \\# 1 \"00\"
=> F10 BadGeneric at line 2
== class_255_in_a_file x.
@ 60 SOA n h 1 2 3 4 5
k 60 CLASS255 A 10.0.0.1
=> F6 BadClass at line 2
== type_41_in_a_file x.
@ 60 SOA n h 1 2 3 4 5
k 60 TYPE41 \\# 0
=> F8 MetaType at line 2
== unlisted_mnemonic_in_a_file x.
@ 60 SOA n h 1 2 3 4 5
k 60 CAA 0 issue \"y\"
=> F7 UnknownType at line 2
== unlisted_type_by_its_number x.
@ 60 SOA n h 1 2 3 4 5
k 60 TYPE257 \\# 2 0000
=>
x. 60 IN SOA n.x. h.x. 1 2 3 4 5
k.x. 60 IN TYPE257 \\# 2 0000
== soa_times_with_units x.
@ 60 SOA n h 1 1h30m 1W1s 2d 5
=>
x. 60 IN SOA n.x. h.x. 1 5400 604801 172800 5
== soa_serial_with_a_unit x.
@ 60 SOA n h 1h 2 3 4 5
=> F13 BadNumber at line 1
== soa_serial_of_32_bits x.
@ 60 SOA n h 4294967295 2 3 4 5
=>
x. 60 IN SOA n.x. h.x. 4294967295 2 3 4 5
== soa_serial_over_32_bits x.
@ 60 SOA n h 4294967296 2 3 4 5
=> F13 BadNumber at line 1
== soa_with_a_number_missing x.
@ 60 SOA n h 1 2 3 4
=> F9 BadRdata at line 1
== ttl_with_units x.
@ 60 SOA n h 1 2 3 4 5
k 1h30m A 10.0.0.1
=>
x. 60 IN SOA n.x. h.x. 1 2 3 4 5
k.x. 5400 IN A 10.0.0.1
== ttl_of_31_bits x.
@ 60 SOA n h 1 2 3 4 5
k 2147483647 A 10.0.0.1
=>
x. 60 IN SOA n.x. h.x. 1 2 3 4 5
k.x. 2147483647 IN A 10.0.0.1
== ttl_over_31_bits x.
@ 60 SOA n h 1 2 3 4 5
k 2147483648 A 10.0.0.1
=> F21 BadTtl at line 2
== ttl_with_digits_left_over x.
@ 60 SOA n h 1 2 3 4 5
k 1h30 A 10.0.0.1
=> F21 BadTtl at line 2
";
