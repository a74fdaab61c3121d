//! Runs of `zonefile check`: every fault of files. The rows are those of `file_runs`. The lines at fault
//! are those of `named-checkzone` 9.18, if it reports them.
use crate::tests::file_runs::Running;
use std::test::Fail;
use test_support::check_table;

const CHECKS: &str = "\
== files_without_a_fault
check example. a.zone
@@ a.zone whole
@ 60 SOA n h 1 2 3 4 5
$INCLUDE b.db
@@ b.db whole
b A 192.0.2.1
=> 0
accepted, records: 2
--
== faults_of_two_files
check example. a.zone
@@ a.zone whole
@ 60 SOA n h 1 2 3 4 5
a A 192.0.2.256
$INCLUDE b.db
  A 192.0.2.1
@@ b.db whole
b MX x m
c RRSIG A 8 1 60 20260101000000 20250101000000 1 @ !!!!
=> 3
a.zone:2: F9 BadRdata: the data doesn't fit its type
b.db:1: F13 BadNumber: a number is malformed or out of range
b.db:2: F9 BadRdata: RRSIG, signature: not base64
3 faults
--
== one_fault
check example. a.zone --most 2
@@ a.zone whole
@ 60 SOA n h 1 2 3 4 5
a A 192.0.2.256
=> 3
a.zone:2: F9 BadRdata: the data doesn't fit its type
1 fault
--
== one_fault_of_more
check example. a.zone --most 1
@@ a.zone whole
@ 60 SOA n h 1 2 3 4 5
a A 192.0.2.256
b A 192.0.2.256
=> 3
a.zone:2: F9 BadRdata: the data doesn't fit its type
1 fault or more
--
== two_faults_of_more
check example. a.zone --most 2
@@ a.zone whole
@ 60 SOA n h 1 2 3 4 5
$GENERATE 1-2 h$ A 192.0.2.${0,0,q}
$ORIGIN
b A 192.0.2.256
=> 3
a.zone:2 value 1: F53 BadTemplate: the template says nothing for this value
a.zone:3: F18 BadDirective: the directive needs one plain item
2 faults or more
--
== text_that_breaks
check example. a.zone
@@ a.zone whole
@ 60 SOA n h 1 2 3 4 5
a A 192.0.2.256
b TXT \"open
c A 192.0.2.256
=> 3
a.zone:2: F9 BadRdata: the data doesn't fit its type
a.zone:3: F14 UnclosedQuote: a quoted string isn't closed
2 faults
--
== zone_as_a_whole
check example. a.zone
@@ a.zone whole
a 60 A 192.0.2.1
=> 3
F42 NoSoa in the input: the zone has no SOA record
1 fault
--
== included_file_that_is_not_there
check example. a.zone
@@ a.zone whole
@ 60 SOA n h 1 2 3 4 5
a A 192.0.2.256
$INCLUDE b.db
c A 192.0.2.256
=> 4
a.zone:2: F9 BadRdata: the data doesn't fit its type
--
a.zone:3: b.db: can't be read
== main_file_that_is_not_there
check example. a.zone
@@ b.zone whole
@ 60 SOA n h 1 2 3 4 5
=> 4
--
a.zone: can't be read
";

#[test]
fn files_are_checked(rt: HostRuntime) -> Result<(), Fail> {
    check_table::<Running>(rt.alloc(), CHECKS)
}
