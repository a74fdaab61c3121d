//! Records of type SRV (RFC 2782) and NAPTR (RFC 3403).

pub(super) const FILES: &str = "\
== service_in_words_and_in_generic_form_is_one_record x.
@ 60 SOA n h 1 2 3 4 5
_s._tcp 60 SRV 0 5 5060 H
_s._tcp 60 TYPE33 \\# 11 0000000513c40148017800
=>
x. 60 IN SOA n.x. h.x. 1 2 3 4 5
_s._tcp.x. 60 IN SRV 0 5 5060 h.x.
== generic_service_data_too_short x.
@ 60 SOA n h 1 2 3 4 5
k 60 TYPE33 \\# 2 0000
=> F9 BadRdata at line 2
== service_port_over_65535 x.
@ 60 SOA n h 1 2 3 4 5
k 60 SRV 0 5 65536 h
=> F13 BadNumber at line 2
== naptr_strings_are_quoted_and_keep_their_case x.
@ 60 SOA n h 1 2 3 4 5
@ 60 NAPTR 100 10 u \"E2U+sip\" \"!^.*$!sip:a@x!\" .
=>
x. 60 IN SOA n.x. h.x. 1 2 3 4 5
x. 60 IN NAPTR 100 10 \"u\" \"E2U+sip\" \"!^.*$!sip:a@x!\" .
== naptr_in_words_and_in_generic_form_is_one_record x.
@ 60 SOA n h 1 2 3 4 5
@ 60 NAPTR 100 10 u \"E2U+sip\" \"!^.*$!sip:a@x!\" .
@ 60 TYPE35 \\# 30 0064000a0175074532552b7369700e215e2e2a24217369703a6140782100
=>
x. 60 IN SOA n.x. h.x. 1 2 3 4 5
x. 60 IN NAPTR 100 10 \"u\" \"E2U+sip\" \"!^.*$!sip:a@x!\" .
== naptr_strings_that_differ_in_case_are_two_records x.
@ 60 SOA n h 1 2 3 4 5
@ 60 NAPTR 1 2 u s r N
@ 60 NAPTR 1 2 U s r n
=>
x. 60 IN SOA n.x. h.x. 1 2 3 4 5
x. 60 IN NAPTR 1 2 \"U\" \"s\" \"r\" n.x.
x. 60 IN NAPTR 1 2 \"u\" \"s\" \"r\" n.x.
== naptr_with_a_string_missing x.
@ 60 SOA n h 1 2 3 4 5
@ 60 NAPTR 100 10 u \"E2U+sip\" .
=> F9 BadRdata at line 2
== naptr_string_of_256_octets x.
@ 60 SOA n h 1 2 3 4 5
@ 60 NAPTR 1 2 \"aaaaaaaaaaaaaaaaaaaaaaaaaaaaaaaaaaaaaaaaaaaaaaaaaaaaaaaaaaaaaaaaaaaaaaaaaaaaaaaaaaaaaaaaaaaaaaaaaaaaaaaaaaaaaaaaaaaaaaaaaaaaaaaaaaaaaaaaaaaaaaaaaaaaaaaaaaaaaaaaaaaaaaaaaaaaaaaaaaaaaaaaaaaaaaaaaaaaaaaaaaaaaaaaaaaaaaaaaaaaaaaaaaaaaaaaaaaaaaaaaaaaaaaaaaaaaaaa\" \"\" \"\" .
=> F11 StringTooLong at line 2
== naptr_number_in_quotes x.
@ 60 SOA n h 1 2 3 4 5
@ 60 NAPTR \"1\" 2 \"\" \"\" \"\" .
=> F9 BadRdata at line 2
== service_target_missing x.
@ 60 SOA n h 1 2 3 4 5
k 60 SRV 0 5 5060
=> F9 BadRdata at line 2
== service_record_of_class_ch x.
@ 60 CH SOA n h 1 2 3 4 5
k srv 00 05 5060 h
=>
x. 60 CH SOA n.x. h.x. 1 2 3 4 5
k.x. 60 CH SRV 0 5 5060 h.x.
== older_text_with_a_generic_service_record_is_the_same x.
x. 60 IN SOA n.x. h.x. 1 2 3 4 5
_s._tcp.x. 60 IN TYPE33 \\# 11 0000000513c40168017800
=>
x. 60 IN SOA n.x. h.x. 1 2 3 4 5
_s._tcp.x. 60 IN SRV 0 5 5060 h.x.
== generic_service_records_that_differ_in_letter_case_are_one x.
@ 60 SOA n h 1 2 3 4 5
k 60 TYPE33 \\# 9 0000000513c4014800
k 60 TYPE33 \\# 9 0000000513c4016800
=>
x. 60 IN SOA n.x. h.x. 1 2 3 4 5
k.x. 60 IN SRV 0 5 5060 h.
";
