//! Canonical texts as files.

pub(super) const FILES: &str = "\
== canonical_text_under_another_origin other.example.
x. 3600 IN SOA n.x. h.x. 1 2 3 4 5
x. 3600 IN NS n.x.
=>
x. 3600 IN SOA n.x. h.x. 1 2 3 4 5
x. 3600 IN NS n.x.
== text_of_the_listing_normalises_to_itself x.
x. 3600 IN SOA n.x. h.x. 1 2 3 4 5
x. 3600 IN NS n.x.
=>
x. 3600 IN SOA n.x. h.x. 1 2 3 4 5
x. 3600 IN NS n.x.
== text_with_escaped_owners_normalises_to_itself x.
x. 60 IN SOA n.x. h.x. 1 2 3 4 5
#.x. 60 IN A 10.0.0.1
\\$origin.x. 60 IN A 10.0.0.1
\\@.x. 60 IN A 10.0.0.1
a\\032b.x. 60 IN A 10.0.0.1
=>
x. 60 IN SOA n.x. h.x. 1 2 3 4 5
#.x. 60 IN A 10.0.0.1
\\$origin.x. 60 IN A 10.0.0.1
\\@.x. 60 IN A 10.0.0.1
a\\032b.x. 60 IN A 10.0.0.1
== zone_at_the_root .
@ 60 SOA . . 0 0 0 0 0
=>
. 60 IN SOA . . 0 0 0 0 0
== text_of_the_root_zone_under_another_origin x.
. 60 IN SOA . . 0 0 0 0 0
=>
. 60 IN SOA . . 0 0 0 0 0
";
