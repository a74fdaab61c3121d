//! Zone transfers in notation, and the answer that each must get (RFC 5936).

/// The transfer of the zone `x.` with an SOA and a name server, in one message.
pub(super) const SMALL: &str = "header 1 8400 1 3 0 0; QUESTION; OPENING; SERVER; CLOSING";

/// Such a transfer in two messages: the first ends with an OPT record, and the second has an
/// address more.
pub(super) const IN_TWO: &str = "\
header 1 8400 1 2 0 1; QUESTION; OPENING; SERVER; . 0 CLASS1232 OPT
header 1 8400 0 3 0 0; n.x. 3600 IN A #0a000001; @14 3600 IN NS @12; @14 3600 IN SOA @12 h@14 1 2 3 4 5
";

/// Rows as of master files, with streams in the place of files.
pub(super) const STREAMS: &str = "\
== small_transfer_gives_two_lines
header 1 8400 1 3 0 0; QUESTION; OPENING; SERVER; CLOSING
=>
x. 3600 IN SOA n.x. h.x. 1 2 3 4 5
x. 3600 IN NS n.x.
== empty_transfer_has_no_closing_soa
=> F38 NoClosingSoa at message 1 offset 0
== transfer_in_two_messages
header 1 8400 1 2 0 1; QUESTION; OPENING; SERVER; . 0 CLASS1232 OPT
header 1 8400 0 3 0 0; n.x. 3600 IN A #0a000001; @14 3600 IN NS @12; @14 3600 IN SOA @12 h@14 1 2 3 4 5
=>
x. 3600 IN SOA n.x. h.x. 1 2 3 4 5
x. 3600 IN NS n.x.
n.x. 3600 IN A 10.0.0.1
== closing_soa_with_another_serial
header 1 8400 1 3 0 0; QUESTION; OPENING; SERVER; @12 3600 IN SOA @31 @35 2 2 3 4 5
=> F36 SoaMismatch at message 1 offset 73
== record_after_the_closing_soa
header 1 8400 1 4 0 0; QUESTION; OPENING; SERVER; CLOSING; SERVER
=> F37 AfterClosing at message 1 offset 109
== one_octet_after_the_last_frame
header 1 8400 1 3 0 0; QUESTION; OPENING; SERVER; CLOSING
#00
=> F22 ShortFrame at message 2 offset 0
== message_marked_as_truncated
header 1 8600 1 3 0 0; QUESTION; OPENING; SERVER; CLOSING
=> F25 Truncated at message 1 offset 0
== message_with_an_error_code
header 1 8405 1 3 0 0; QUESTION; OPENING; SERVER; CLOSING
=> F26 ErrorCode 5 at message 1 offset 0
== message_that_is_a_query
header 1 400 1 3 0 0; QUESTION; OPENING; SERVER; CLOSING
=> F24 NotAResponse at message 1 offset 0
== question_of_another_type
header 1 8400 1 3 0 0; question x. A IN; OPENING; SERVER; CLOSING
=> F29 BadQuestion at message 1 offset 12
== question_of_another_class
header 1 8400 1 3 0 0; question x. AXFR CH; OPENING; SERVER; CLOSING
=> F29 BadQuestion at message 1 offset 19
== transfer_given_twice
header 1 8400 1 3 0 0; QUESTION; OPENING; SERVER; CLOSING
header 1 8400 1 3 0 0; QUESTION; OPENING; SERVER; CLOSING
=> F37 AfterClosing at message 2 offset 19
== second_message_with_another_id
header 1 8400 1 3 0 0; QUESTION; OPENING; SERVER; CLOSING
header 2 8400 1 3 0 0; QUESTION; OPENING; SERVER; CLOSING
=> F28 IdMismatch at message 2 offset 0
== frame_of_no_octets
#0000
=> F23 ShortMessage at message 1 offset 0
== first_answer_is_not_an_soa
header 1 8400 1 1 0 0; QUESTION; @12 3600 IN NS @12
=> F35 NoOpeningSoa at message 1 offset 19
== message_without_answers_alone
header 1 8400 0 0 0 0
=> F38 NoClosingSoa at message 2 offset 0
== closing_soa_with_another_ttl
header 1 8400 1 3 0 0; QUESTION; OPENING; SERVER; @12 2147487248 IN SOA @31 @35 1 2 3 4 5
=> F36 SoaMismatch at message 1 offset 73
== ttl_with_its_top_bit_set_is_zero
header 1 8400 1 3 0 0; QUESTION; @12 2147483648 IN SOA n@12 h@12 1 2 3 4 5; @12 0 IN NS @31; @12 2147483648 IN SOA @31 @35 1 2 3 4 5
=>
x. 0 IN SOA n.x. h.x. 1 2 3 4 5
x. 0 IN NS n.x.
== first_of_two_frames_alone
header 1 8400 1 2 0 1; QUESTION; OPENING; SERVER; . 0 CLASS1232 OPT
=> F38 NoClosingSoa at message 2 offset 0
== answer_count_far_too_high
header 1 8400 1 ffff 0 0; QUESTION; OPENING; SERVER; CLOSING
=> F23 ShortMessage at message 1 offset 109
== answer_count_one_too_low
header 1 8400 1 2 0 0; QUESTION; OPENING; SERVER; CLOSING
=> F34 TrailingOctets at message 1 offset 0
== question_counted_as_missing
header 1 8400 0 3 0 0; QUESTION; OPENING; SERVER; CLOSING
=> F23 ShortMessage at message 1 offset 26
== upper_case_question_name
header 1 8400 1 3 0 0; question X. AXFR IN; OPENING; SERVER; CLOSING
=>
x. 3600 IN SOA n.x. h.x. 1 2 3 4 5
x. 3600 IN NS n.x.
== two_questions_in_a_transfer
header 1 8400 2 3 0 0; QUESTION; OPENING; SERVER; CLOSING
=> F27 BadCounts at message 1 offset 0
== authority_records_in_a_transfer
header 1 8400 1 3 1 0; QUESTION; OPENING; SERVER; CLOSING
=> F27 BadCounts at message 1 offset 0
== octet_after_the_last_record_of_a_message
header 1 8400 1 3 0 0; QUESTION; OPENING; SERVER; CLOSING; #00
=> F34 TrailingOctets at message 1 offset 0
== reserved_label_in_an_owner
header 1 8400 1 3 0 0; QUESTION; OPENING; #400c 3600 IN NS @31; CLOSING
=> F30 ReservedLabel at message 1 offset 59
== owner_that_points_to_itself
header 1 8400 1 3 0 0; QUESTION; OPENING; @59 3600 IN NS @31; CLOSING
=> F31 BadPointer at message 1 offset 59
== structural_fault_before_a_fault_of_data
header 1 8400 1 3 0 0; QUESTION; OPENING; @12 3600 IN NS @71; @73 3600 IN SOA @31 @35 1 2 3 4 5
=> F31 BadPointer at message 1 offset 73
== answer_of_another_class
header 1 8400 1 3 0 0; QUESTION; OPENING; @12 3600 CH NS @31; CLOSING
=> F39 ClassMismatch at message 1 offset 59
== opcode_not_zero
header 1 8c00 1 3 0 0; QUESTION; OPENING; SERVER; CLOSING
=> F24 NotAResponse at message 1 offset 0
== refused_type_in_a_transfer
header 1 8400 1 3 0 0; QUESTION; OPENING; @12 3600 IN TYPE7 @31; CLOSING
=> F33 CompressibleType at message 1 offset 59
== later_question_of_another_name
header 1 8400 1 2 0 1; QUESTION; OPENING; SERVER; . 0 CLASS1232 OPT
header 1 8400 1 0 0 0; question y. AXFR IN
=> F29 BadQuestion at message 2 offset 12
== record_outside_the_zone_in_a_transfer
header 1 8400 1 3 0 0; QUESTION; OPENING; . 3600 IN NS @31; CLOSING
=> F43 OutOfZone . in the input
== octet_left_over_in_the_data
header 1 8400 1 3 0 0; QUESTION; OPENING; @12 3600 IN NS @31 #00; CLOSING
=> F9 BadRdata at message 1 offset 59
== txt_of_no_octets_in_a_transfer
header 1 8400 1 3 0 0; QUESTION; OPENING; @12 3600 IN TXT; CLOSING
=> F9 BadRdata at message 1 offset 59
== additional_records_may_be_of_any_kind
header 1 8400 1 3 0 1; QUESTION; OPENING; SERVER; CLOSING; @31 0 CLASS255 TYPE24 #c0ffee
=>
x. 3600 IN SOA n.x. h.x. 1 2 3 4 5
x. 3600 IN NS n.x.
== address_of_another_class_in_a_transfer
header 1 8400 1 3 0 0; question x. AXFR CH; @12 3600 CH SOA n@12 h@12 1 2 3 4 5; @12 3600 CH A #0a0000; @12 3600 CH SOA @31 @35 1 2 3 4 5
=>
x. 3600 CH SOA n.x. h.x. 1 2 3 4 5
x. 3600 CH TYPE1 \\# 3 0a0000
== compressed_service_target_is_followed
header 1 8400 1 3 0 0; QUESTION; OPENING; @12 3600 IN SRV 0 5 5060 @31; CLOSING
=>
x. 3600 IN SOA n.x. h.x. 1 2 3 4 5
x. 3600 IN SRV 0 5 5060 n.x.
== type_17_in_a_transfer_is_still_refused
header 1 8400 1 3 0 0; QUESTION; OPENING; @12 3600 IN TYPE17 @31; CLOSING
=> F33 CompressibleType at message 1 offset 59
== service_data_too_short_in_a_transfer
header 1 8400 1 3 0 0; QUESTION; OPENING; @12 3600 IN SRV @31; CLOSING
=> F9 BadRdata at message 1 offset 59
== compressed_naptr_replacement_is_followed
header 1 8400 1 3 0 0; QUESTION; OPENING; @12 3600 IN NAPTR 100 10 #01550000 @31; CLOSING
=>
x. 3600 IN SOA n.x. h.x. 1 2 3 4 5
x. 3600 IN NAPTR 100 10 \"U\" \"\" \"\" n.x.
";
