//! The shortest files.

pub(super) const FILES: &str = "\
== first_run_puts_the_soa_line_first x.
x. 3600 IN NS n.x.
x. 3600 IN SOA n.x. h.x. 1 2 3 4 5
=>
x. 3600 IN SOA n.x. h.x. 1 2 3 4 5
x. 3600 IN NS n.x.
== default_ttl_and_relative_names_give_two_full_lines x.
$TTL 1h
@ SOA N h 1 2 3 4 5
  NS n
=>
x. 3600 IN SOA n.x. h.x. 1 2 3 4 5
x. 3600 IN NS n.x.
== letter_case_and_leading_zeros_make_equal_records x.
X. 60 IN SOA n.x. h.x. 1 2 3 4 5
x. 060 IN NS N.x.
x. 60 IN NS n.x.
=>
x. 60 IN SOA n.x. h.x. 1 2 3 4 5
x. 60 IN NS n.x.
== ns_record_alone_has_no_soa x.
x. 60 IN NS n.x.
=> F42 NoSoa in the input
== ttl_differs_between_two_ns_records_of_one_owner x.
x. 60 IN NS n.x.
x. 61 IN NS m.x.
=> F41 DifferingTtl at line 2
== blank_before_the_first_full_record_means_no_owner x.
 NS n.x.
=> F19 NoOwner at line 1
== empty_file_has_no_soa x.
=> F42 NoSoa in the input
";
