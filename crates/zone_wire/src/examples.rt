//! Names in messages, zone transfers and the faults of both, computed from the definitions.
#![tactic(auto, using(crate::proofs::Names::Computing::walk_computes), unfolding(crate::specs::Machine::Walk::standing_in, crate::specs::Machine::Walk::walk_by, crate::specs::Machine::Walk::walk, crate::specs::Machine::Walk::ending))]

ghost use Rattle.std.specs.Prelude.{◌∷◌, ◌++◌, [], Some, None};
ghost use Rattle.zone_wire.specs.Examples.{after_zeros, chain, labels_a, longest_walk, root_soa, soa_message, placed_soa, WalkEnds, answer_header, numbers, question_x, opening_x, server_x, record_of_class, record_x, closing_x, ends_with, message_with, small_body, small_message, first_message, second_message, soa_x, ns_x, srv_x, naptr_x, address_n, placed_at, small_records};
ghost use Rattle.std.specs.List.{AllByRecursion};
ghost use Rattle.zone_wire.specs.Name.{IsNameAt};
ghost use Rattle.zone_wire.specs.Stream.{StreamReads};
ghost use Rattle.zone_rdata.specs.declared.fault.Place.TheVariants.{Message};
ghost use Rattle.zone_wire.specs.Transfer.{frame, StreamStates};
ghost use Rattle.zone_rdata.specs.declared.fault.Fault.TheVariants.{BadClass, MetaType, NameTooLong, BadRdata, ShortFrame, ShortMessage, NotAResponse, Truncated, ErrorCode, BadCounts, IdMismatch, BadQuestion, ReservedLabel, BadPointer, TooManyPointers, CompressibleType, TrailingOctets, NoOpeningSoa, SoaMismatch, AfterClosing, NoClosingSoa};

use crate::laws::a_transfer_is_read;

/// `A.x.` by a pointer after `X.`: letters are folded, and the name ends after the pointer.
pub fn a_compressed_name()
    ensures { IsNameAt (after_zeros (1 ∷ 88 ∷ 0 ∷ 1 ∷ 65 ∷ 192 ∷ 12 ∷ [])) 15
        (record { labels = (97 ∷ []) ∷ (120 ∷ []) ∷ []; end = 19; steps = 4; pointers = 1 }) }
{}

/// The root, a name of no label.
pub fn the_root()
    ensures { IsNameAt (after_zeros (0 ∷ [])) 12
        (record { labels = []; end = 13; steps = 1; pointers = 0 }) }
{}

/// Octets that run past the message, and a reserved form.
pub fn labels_that_are_none()
    ensures no_octet { WalkEnds [] 12 (Some ShortMessage) 0 }
    ensures label_too_long { WalkEnds (5 ∷ 97 ∷ []) 12 (Some ShortMessage) 1 }
    ensures no_root { WalkEnds (1 ∷ 97 ∷ []) 12 (Some ShortMessage) 1 }
    ensures half_a_pointer { WalkEnds (192 ∷ []) 12 (Some ShortMessage) 1 }
    ensures reserved { WalkEnds (64 ∷ []) 12 (Some ReservedLabel) 1 }
    ensures other_reserved { WalkEnds (128 ∷ []) 12 (Some ReservedLabel) 1 }
{}

/// Pointers into the header, to themselves and back into their own run of labels.
pub fn pointers_that_lead_nowhere()
    ensures header { WalkEnds (192 ∷ 11 ∷ []) 12 (Some BadPointer) 1 }
    ensures itself { WalkEnds (192 ∷ 12 ∷ []) 12 (Some BadPointer) 1 }
    ensures own_run { WalkEnds (1 ∷ 97 ∷ 192 ∷ 12 ∷ []) 12 (Some BadPointer) 2 }
{}

/// A chain of 128 pointers down to the root is a name, and one of 129 is none.
pub fn chains_of_pointers()
    ensures most { WalkEnds (0 ∷ chain 128 13 12) 267 None 129 }
    ensures too_many { WalkEnds (0 ∷ chain 129 13 12) 269 (Some TooManyPointers) 129 }
{}

/// A transfer of a zone with no record but its SOA, in one message.
pub fn a_transfer()
    ensures { StreamStates (frame soa_message) (placed_soa 12 ∷ []) }
{
    a_transfer_is_read();
}

/// The longest walk has 256 places: 127 labels, 128 pointers and the root. A label before those 127
/// is one too many.
pub fn long_names()
    ensures longest { WalkEnds longest_walk 521 None 256 }
    ensures too_long { WalkEnds (longest_walk ++ 1 ∷ 97 ∷ 192 ∷ 12 ∷ []) 523
        (Some NameTooLong) 129 }
{}

/// Transfers in one message with compressed names, and one in two.
pub fn transfers_without_a_fault()
    ensures small { StreamReads (frame small_message) small_records None }
    ensures service { StreamReads
        (frame (message_with (record_x 33 (0 ∷ 0 ∷ 0 ∷ 5 ∷ 19 ∷ 196 ∷ 192 ∷ 31 ∷ []))))
        (placed_at 1 19 soa_x ∷ placed_at 1 59 srv_x ∷ []) None }
    ensures strings { StreamReads
        (frame (message_with (record_x 35 (0 ∷ 100 ∷ 0 ∷ 10 ∷ 1 ∷ 85 ∷ 0 ∷ 0 ∷ 192 ∷ 31 ∷ []))))
        (placed_at 1 19 soa_x ∷ placed_at 1 59 naptr_x ∷ []) None }
    ensures two_messages { StreamReads (frame first_message ++ frame second_message)
        (placed_at 1 19 soa_x ∷ placed_at 1 59 ns_x ∷ placed_at 2 12 address_n ∷ placed_at 2 31 ns_x
        ∷ []) None }
{}

/// Streams that end before the transfer does, or inside a frame.
pub fn streams_cut_short()
    ensures empty { StreamReads [] [] (Some (NoClosingSoa, Message 1 0)) }
    ensures no_answers { StreamReads (frame (0 ∷ 1 ∷ 132 ∷ 0 ∷ 0 ∷ 0 ∷ 0 ∷ 0 ∷ 0 ∷ 0 ∷ 0 ∷ 0 ∷ []))
        [] (Some (NoClosingSoa, Message 2 0)) }
    ensures first_of_two { StreamReads (frame first_message) small_records
        (Some (NoClosingSoa, Message 2 0)) }
    ensures one_octet_more { StreamReads (frame small_message ++ 0 ∷ []) small_records
        (Some (ShortFrame, Message 2 0)) }
    ensures half_a_length { StreamReads (0 ∷ []) [] (Some (ShortFrame, Message 1 0)) }
    ensures half_a_message { StreamReads (0 ∷ 109 ∷ answer_header 1 3 0)
        [] (Some (ShortFrame, Message 1 0)) }
{}

/// Faults in the structure of a message: none of its records is read, nor is their data judged.
pub fn faults_of_messages()
    ensures no_octets { StreamReads (0 ∷ 0 ∷ []) [] (Some (ShortMessage, Message 1 0)) }
    ensures query { StreamReads
        (frame ((0 ∷ 1 ∷ 4 ∷ 0 ∷ 0 ∷ 1 ∷ 0 ∷ 3 ∷ 0 ∷ 0 ∷ 0 ∷ 0 ∷ []) ++ small_body))
        [] (Some (NotAResponse, Message 1 0)) }
    ensures opcode { StreamReads
        (frame ((0 ∷ 1 ∷ 140 ∷ 0 ∷ 0 ∷ 1 ∷ 0 ∷ 3 ∷ 0 ∷ 0 ∷ 0 ∷ 0 ∷ []) ++ small_body))
        [] (Some (NotAResponse, Message 1 0)) }
    ensures truncated { StreamReads
        (frame ((0 ∷ 1 ∷ 134 ∷ 0 ∷ 0 ∷ 1 ∷ 0 ∷ 3 ∷ 0 ∷ 0 ∷ 0 ∷ 0 ∷ []) ++ small_body))
        [] (Some (Truncated, Message 1 0)) }
    ensures error { StreamReads
        (frame ((0 ∷ 1 ∷ 132 ∷ 5 ∷ 0 ∷ 1 ∷ 0 ∷ 3 ∷ 0 ∷ 0 ∷ 0 ∷ 0 ∷ []) ++ small_body))
        [] (Some (ErrorCode 5, Message 1 0)) }
    ensures two_questions { StreamReads (frame (answer_header 2 3 0 ++ small_body)) []
        (Some (BadCounts, Message 1 0)) }
    ensures authority { StreamReads
        (frame ((0 ∷ 1 ∷ 132 ∷ 0 ∷ 0 ∷ 1 ∷ 0 ∷ 3 ∷ 0 ∷ 1 ∷ 0 ∷ 0 ∷ []) ++ small_body))
        [] (Some (BadCounts, Message 1 0)) }
    ensures too_many_answers { StreamReads (frame (answer_header 1 4 0 ++ small_body)) []
        (Some (ShortMessage, Message 1 109)) }
    ensures trailing { StreamReads (frame (answer_header 1 3 0 ++ small_body ++ 0 ∷ [])) []
        (Some (TrailingOctets, Message 1 0)) }
    ensures question_type { StreamReads
        (frame (answer_header 1 3 0 ++ (1 ∷ 120 ∷ 0 ∷ 0 ∷ 1 ∷ 0 ∷ 1 ∷ []) ++ opening_x ++ server_x
        ++ closing_x 1)) [] (Some (BadQuestion, Message 1 12)) }
    ensures reserved_owner { StreamReads
        (frame (message_with (64 ∷ 12 ∷ 0 ∷ 2 ∷ 0 ∷ 1 ∷ 0 ∷ 0 ∷ 14 ∷ 16 ∷ 0 ∷ 2 ∷ 192 ∷ 31 ∷ [])))
        [] (Some (ReservedLabel, Message 1 59)) }
    ensures owner_at_itself { StreamReads
        (frame (message_with (192 ∷ 59 ∷ 0 ∷ 2 ∷ 0 ∷ 1 ∷ 0 ∷ 0 ∷ 14 ∷ 16 ∷ 0 ∷ 2 ∷ 192 ∷ 31 ∷ [])))
        [] (Some (BadPointer, Message 1 59)) }
    ensures before_bad_data { StreamReads
        (frame (answer_header 1 3 0 ++ question_x ++ opening_x ++ record_x 2 (192 ∷ 71 ∷ [])
        ++ (192 ∷ 73 ∷ 0 ∷ 6 ∷ 0 ∷ 1 ∷ 0 ∷ 0 ∷ 14 ∷ 16 ∷ 0 ∷ 24 ∷ 192 ∷ 31 ∷ 192 ∷ 35 ∷ [])
        ++ numbers 1)) [] (Some (BadPointer, Message 1 73)) }
    ensures second_id { StreamReads
        (frame small_message
        ++ frame ((0 ∷ 2 ∷ 132 ∷ 0 ∷ 0 ∷ 1 ∷ 0 ∷ 3 ∷ 0 ∷ 0 ∷ 0 ∷ 0 ∷ []) ++ small_body))
        small_records (Some (IdMismatch, Message 2 0)) }
    ensures later_question { StreamReads
        (frame first_message ++ frame (answer_header 1 0 0 ++ 1 ∷ 121 ∷ 0 ∷ 0 ∷ 252 ∷ 0 ∷ 1 ∷ []))
        small_records (Some (BadQuestion, Message 2 12)) }
{}

/// Faults of answers: the answers before are read.
pub fn faults_of_answers()
    ensures no_opening { StreamReads
        (frame (answer_header 1 1 0 ++ question_x ++ record_x 2 (192 ∷ 12 ∷ []))) []
        (Some (NoOpeningSoa, Message 1 19)) }
    ensures question_class { StreamReads
        (frame (answer_header 1 3 0 ++ (1 ∷ 120 ∷ 0 ∷ 0 ∷ 252 ∷ 0 ∷ 3 ∷ []) ++ opening_x ++ server_x
        ++ closing_x 1)) [] (Some (BadQuestion, Message 1 19)) }
    ensures other_serial { StreamReads
        (frame (answer_header 1 3 0 ++ question_x ++ opening_x ++ server_x ++ closing_x 2))
        small_records (Some (SoaMismatch, Message 1 73)) }
    ensures after_closing { StreamReads
        (frame (answer_header 1 4 0 ++ small_body ++ server_x)) small_records
        (Some (AfterClosing, Message 1 109)) }
    ensures given_twice { StreamReads (frame small_message ++ frame small_message) small_records
        (Some (AfterClosing, Message 2 19)) }
    ensures compressible { StreamReads (frame (message_with (record_x 7 (192 ∷ 31 ∷ []))))
        (placed_at 1 19 soa_x ∷ []) (Some (CompressibleType, Message 1 59)) }
    ensures left_over { StreamReads (frame (message_with (record_x 2 (192 ∷ 31 ∷ 0 ∷ []))))
        (placed_at 1 19 soa_x ∷ []) (Some (BadRdata, Message 1 59)) }
    ensures no_string { StreamReads (frame (message_with (record_x 16 [])))
        (placed_at 1 19 soa_x ∷ [])
        (Some (BadRdata, Message 1 59)) }
    ensures short_service { StreamReads (frame (message_with (record_x 33 (192 ∷ 31 ∷ []))))
        (placed_at 1 19 soa_x ∷ []) (Some (BadRdata, Message 1 59)) }
    ensures points_to_itself { StreamReads (frame (message_with (record_x 2 (192 ∷ 71 ∷ []))))
        (placed_at 1 19 soa_x ∷ []) (Some (BadPointer, Message 1 59)) }
{}

/// A place of a name with two faults has the first: an octet outside the message before a name of
/// over 255 octets, and a bad target before the 129th pointer.
pub fn names_with_two_faults()
    ensures outside_and_too_long { WalkEnds (labels_a 127 ++ 1 ∷ []) 12 (Some ShortMessage) 128 }
    ensures bad_target_and_too_many { WalkEnds (chain 129 12 12) 268 (Some BadPointer) 129 }
{}

/// A message with two faults in its structure has the first, by the order of its parts.
pub fn messages_with_two_faults()
    ensures query_cut_off { StreamReads (frame (0 ∷ 1 ∷ 4 ∷ 0 ∷ []))
        [] (Some (ShortMessage, Message 1 0)) }
    ensures truncated_query { StreamReads
        (frame ((0 ∷ 1 ∷ 6 ∷ 0 ∷ 0 ∷ 1 ∷ 0 ∷ 3 ∷ 0 ∷ 0 ∷ 0 ∷ 0 ∷ []) ++ small_body))
        [] (Some (NotAResponse, Message 1 0)) }
    ensures truncated_error { StreamReads
        (frame ((0 ∷ 1 ∷ 134 ∷ 5 ∷ 0 ∷ 1 ∷ 0 ∷ 3 ∷ 0 ∷ 0 ∷ 0 ∷ 0 ∷ []) ++ small_body))
        [] (Some (Truncated, Message 1 0)) }
    ensures error_with_two_questions { StreamReads
        (frame ((0 ∷ 1 ∷ 132 ∷ 5 ∷ 0 ∷ 2 ∷ 0 ∷ 3 ∷ 0 ∷ 0 ∷ 0 ∷ 0 ∷ []) ++ small_body))
        [] (Some (ErrorCode 5, Message 1 0)) }
    ensures trailing_under_other_id { StreamReads
        (frame first_message ++ frame (0 ∷ 2 ∷ 132 ∷ 0 ∷ 0 ∷ 0 ∷ 0 ∷ 0 ∷ 0 ∷ 0 ∷ 0 ∷ 0 ∷ 0 ∷ []))
        small_records (Some (TrailingOctets, Message 2 0)) }
    ensures question_under_other_id { StreamReads
        (frame first_message
        ++ frame ((0 ∷ 2 ∷ 132 ∷ 0 ∷ 0 ∷ 1 ∷ 0 ∷ 0 ∷ 0 ∷ 0 ∷ 0 ∷ 0 ∷ []) ++ 1 ∷ 121 ∷ 0 ∷ 0 ∷ 252
        ∷ 0 ∷ 1 ∷ [])) small_records (Some (IdMismatch, Message 2 0)) }
{}

/// An answer with two faults has the first: of its class, its type, its data, and then of the order
/// of answers.
pub fn answers_with_two_faults()
    ensures class_and_type { StreamReads (frame (ends_with (record_of_class 0 41 [])))
        (placed_at 1 19 soa_x ∷ []) (Some (BadClass, Message 1 59)) }
    ensures name_past_the_message { StreamReads (frame (ends_with (record_x 2 [])))
        (placed_at 1 19 soa_x ∷ [])
        (Some (ShortMessage, Message 1 59)) }
    ensures name_past_the_data { StreamReads (frame (message_with (record_x 2 [])))
        (placed_at 1 19 soa_x ∷ [])
        (Some (BadRdata, Message 1 59)) }
    ensures bad_data_first { StreamReads
        (frame (answer_header 1 1 0 ++ question_x ++ record_x 16 [])) []
        (Some (BadRdata, Message 1 19)) }
    ensures no_opening_of_other_class { StreamReads
        (frame (answer_header 1 1 0 ++ (1 ∷ 120 ∷ 0 ∷ 0 ∷ 252 ∷ 0 ∷ 3 ∷ []) ++ record_x 2
        (192 ∷ 12 ∷ []))) [] (Some (NoOpeningSoa, Message 1 19)) }
    ensures differing_soa_after_closing { StreamReads
        (frame (answer_header 1 4 0 ++ small_body ++ closing_x 2)) small_records
        (Some (AfterClosing, Message 1 109)) }
    ensures class_after_closing { StreamReads
        (frame (answer_header 1 4 0 ++ small_body ++ record_of_class 255 1 []))
        small_records (Some (BadClass, Message 1 109)) }
{}

/// The first and the last types that no record of a zone has.
pub fn types_of_no_record()
    ensures { AllByRecursion
        (λ kind. StreamReads (frame (ends_with (record_x kind []))) (placed_at 1 19 soa_x ∷ [])
        (Some (MetaType, Message 1 59))) (0 ∷ 41 ∷ 128 ∷ 255 ∷ []) }
{}

/// MD, MF, MB, MG, MR and MINFO (RFC 1035 3.3), and RP, AFSDB, RT, SIG, PX and NXT (RFC 3597 4).
pub fn types_with_compressed_names()
    ensures { AllByRecursion
        (λ kind. StreamReads (frame (ends_with (record_x kind []))) (placed_at 1 19 soa_x ∷ [])
        (Some (CompressibleType, Message 1 59)))
        (3 ∷ 4 ∷ 7 ∷ 8 ∷ 9 ∷ 14 ∷ 17 ∷ 18 ∷ 21 ∷ 24 ∷ 26 ∷ 30 ∷ []) }
{}
