//! Lines that no other table of files has.

pub(super) const FILES: &str = "\
== short_escape_in_a_string x.
@ 60 IN SOA n h 1 2 3 4 5
a 60 IN TXT \\04
=> F4 BadEscape at line 2
== mnemonic_that_is_not_listed x.
@ 60 IN SOA n h 1 2 3 4 5
k 60 IN CAA 0 issue y
=> F7 UnknownType at line 2
== bare_string_of_256_octets x.
@ 60 IN SOA n h 1 2 3 4 5
t 60 IN TXT aaaaaaaaaaaaaaaaaaaaaaaaaaaaaaaaaaaaaaaaaaaaaaaaaaaaaaaaaaaaaaaaaaaaaaaaaaaaaaaaaaaaaaaaaaaaaaaaaaaaaaaaaaaaaaaaaaaaaaaaaaaaaaaaaaaaaaaaaaaaaaaaaaaaaaaaaaaaaaaaaaaaaaaaaaaaaaaaaaaaaaaaaaaaaaaaaaaaaaaaaaaaaaaaaaaaaaaaaaaaaaaaaaaaaaaaaaaaaaaaaaaaaaaaaaaaaaaa
=> F11 StringTooLong at line 2
== least_owner_outside_of_ns_records x.
@ 60 IN SOA n h 1 2 3 4 5
b.y. 60 IN NS n.x.
y. 60 IN NS n.x.
=> F43 OutOfZone y. in the input
";
