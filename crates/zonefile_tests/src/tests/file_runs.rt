//! Runs of `zonefile`: master files with those that they include, from the arguments of the command
//! line to the exit status.
//!
//! A row has a name, the arguments after the program's name, and the files: a line `@@ NAME whole` or
//! `@@ NAME broken` is before the octets of each, and says what its reader does at their end. The
//! answer is the exit status, what is written on standard output, and after `--` what is written on
//! standard error.
use crate::tests::folder::Folder;
use std::alloc::Global;
use std::test::Fail;
use test_support::{
    Narrow, Question, Run, check_octets, check_same, check_table, had_memory, parted, push_run,
    roomy, words_of,
};
use zonefile_command::{order_of, refuse, run};

/// What a run of a command line over the files does.
fn run_of(alloc: Global, line: &str, files: &str, each: usize) -> Result<Run, Fail> {
    let (mut output, mut told) = (roomy(alloc)?, roomy(alloc)?);
    let mut folder = Folder { files, each };
    let status = match order_of(alloc, &words_of(alloc, line)?) {
        Ok(order) => run(alloc, &order, &mut folder, &mut output, &mut told),
        Err(no_order) => refuse(&no_order, &mut output, &mut told),
    };
    had_memory(&told)?;
    Ok(Run {
        status,
        output,
        told,
    })
}

/// What a run does, which must be the same over files that give all at once and over files that give
/// an octet at a time.
pub(crate) struct Running;

impl Question for Running {
    fn answer(alloc: Global, asked: &'static str, out: &mut Vec<u8>) -> Result<(), Fail> {
        let (_, rest) = parted(asked, "\n")?;
        let (line, files) = parted(rest, "\n")?;
        let at_once = run_of(alloc, line, files, usize::MAX)?;
        let singly = run_of(alloc, line, files, 1)?;
        singly.check(at_once.status, &at_once.output, &at_once.told)?;
        push_run(alloc, out, &at_once)
    }
}

/// Files that are expanded and read, and what is reported of those that are refused.
const FILES: &str = "\
== included_file_has_its_own_origin_and_owner
expand example. a.zone
@@ a.zone whole
@ 60 SOA n h 1 2 3 4 5
ns A 192.0.2.1
$INCLUDE parts/b.db web
 TXT \"of ns\"
@@ parts/b.db whole
@ A 192.0.2.80
www A 192.0.2.81=> 0
@ 60 SOA n h 1 2 3 4 5
ns A 192.0.2.1
$ORIGIN web.example.
@ A 192.0.2.80
www A 192.0.2.81
$ORIGIN example.
ns.example. TXT \"of ns\"
--
== zone_of_both_is_normalised
normalise example a.zone
@@ a.zone whole
@ 60 SOA n h 1 2 3 4 5
ns A 192.0.2.1
$INCLUDE parts/b.db web
 TXT \"of ns\"
@@ parts/b.db whole
@ CAA 0 issue \"ca\"
=> 0
example. 60 IN SOA n.example. h.example. 1 2 3 4 5
ns.example. 60 IN A 192.0.2.1
ns.example. 60 IN TXT \"of ns\"
web.example. 60 IN TYPE257 \\# 9 000569737375656361
--
== directory_is_before_included_names
explain example. in/a.zone --directory in
@@ in/a.zone whole
@ 60 SOA n h 1 2 3 4 5
$INCLUDE b.db
@@ in/b.db whole
b A 192.0.2.1
=> 0
accepted, records: 2
--
== standard_input_has_its_name
explain example. -
@@ - whole
@ 60 SOA n h 1 2 3 4 5
b A 192.0.2.256
=> 3
F9 BadRdata at -:2: the data doesn't fit its type
--
== fault_is_reported_in_its_file
explain example. a.zone
@@ a.zone whole
@ 60 SOA n h 1 2 3 4 5
$INCLUDE parts/bad.db
@@ parts/bad.db whole

; c
h A 192.0.2.256
=> 3
F9 BadRdata at parts/bad.db:3: the data doesn't fit its type
--
== fault_after_an_included_file
explain example. a.zone
@@ a.zone whole
@ 60 SOA n h 1 2 3 4 5
$INCLUDE b.db
h A 192.0.2.256
@@ b.db whole
b A 192.0.2.1
c A 192.0.2.1
=> 3
F9 BadRdata at a.zone:3: the data doesn't fit its type
--
== further_types_in_presentation_format
normalise --words example a.zone
@@ a.zone whole
@ 60 SOA n h 1 2 3 4 5
b CAA 0 issue \"ca\"
c A 192.0.2.1
=> 0
example. 60 IN SOA n.example. h.example. 1 2 3 4 5
b.example. 60 IN CAA 0 issue \"ca\"
c.example. 60 IN A 192.0.2.1
--
== line_of_a_generate_is_reported
explain example. a.zone
@@ a.zone whole
@ 60 SOA n h 1 2 3 4 5

$GENERATE 254-300 h$ A 192.0.2.$
=> 3
F9 BadRdata at a.zone:3 value 256: the data doesn't fit its type
--
== time_to_live_goes_on_after_an_included_file
normalise example. a.zone
@@ a.zone whole
$TTL 60
@ SOA n h 1 2 3 4 5
$INCLUDE b.db
c A 192.0.2.1
@@ b.db whole
$TTL 30
b A 192.0.2.1
=> 0
example. 60 IN SOA n.example. h.example. 1 2 3 4 5
b.example. 30 IN A 192.0.2.1
c.example. 30 IN A 192.0.2.1
--
== field_of_a_further_type_is_reported
normalise example. a.zone
@@ a.zone whole
@ 60 SOA n h 1 2 3 4 5
a CAA 0 issue
=> 3
--
F9 BadRdata at a.zone:2: CAA, value: nothing left
== file_that_includes_itself
explain example. loop.zone
@@ loop.zone whole
$INCLUDE loop.zone
=> 3
F49 TooManyIncludes at loop.zone:1: files include one another too deep or too often
--
== file_outside_the_directory
explain example. outside.zone
@@ outside.zone whole
@ 60 SOA n h 1 2 3 4 5
$INCLUDE ../secret
@@ ../secret whole
s A 192.0.2.1
=> 3
F48 BadFileName at outside.zone:2: the file name isn't one below the directory
--
== missing_file
explain example. missing.zone
@@ missing.zone whole
@ 60 SOA n h 1 2 3 4 5
$INCLUDE missing.db
=> 4
--
missing.zone:2: missing.db: can't be read
== fault_before_a_missing_file
explain example. missing.zone
@@ missing.zone whole
@ 60 SOA n h 1 2 3 4 5
a A 192.0.2.256
$INCLUDE missing.db
=> 3
F9 BadRdata at missing.zone:2: the data doesn't fit its type
--
== missing_main_file
normalise example. missing.zone
@@ other.zone whole
=> 4
--
missing.zone: can't be read
== main_file_that_fails
normalise example. a.zone
@@ a.zone broken
@ 60 SOA n h 1 2 3 4 5
=> 4
--
a.zone: can't be read
== included_file_that_fails
normalise example. a.zone
@@ a.zone whole
@ 60 SOA n h 1 2 3 4 5
$INCLUDE b.db
c A 192.0.2.1
@@ b.db broken
b A 192.0.2.1
=> 4
--
a.zone:2: b.db: can't be read
== expanded_text_that_is_not_whole_ends_so
expand example. a.zone
@@ a.zone broken
@ 60 SOA n h 1 2 3 4 5
=> 4
@ 60 SOA n h 1 2 3 4 5
$STOPPED
--
a.zone: can't be read
== expanded_text_of_a_fault_ends_so
expand example. a.zone
@@ a.zone whole
@ 60 SOA n h 1 2 3 4 5
$INCLUDE
b A 192.0.2.1
=> 3
@ 60 SOA n h 1 2 3 4 5
$STOPPED
--
F47 BadInclude at a.zone:2: $INCLUDE needs a file name and at most an origin
== one_zone_of_two_files
compare example. a.zone example. b.zone
@@ a.zone whole
@ 60 SOA n h 1 2 3 4 5
$INCLUDE c.db
@@ b.zone whole
@ 60 SOA n h 1 2 3 4 5
c CAA 0 issue \"ca\"
@@ c.db whole
c TYPE257 \\# 9 000569737375656361
=> 0
same
--
== zones_that_differ
compare example. a.zone example. b.zone
@@ a.zone whole
@ 60 SOA n h 1 2 3 4 5
@@ b.zone whole
@ 60 SOA n h 2 2 3 4 5
=> 1
different at line 1
--
== changes_in_canonical_order
diff example. a.zone example. b.zone
@@ a.zone whole
@ 60 SOA n h 1 2 3 4 5
$INCLUDE c.db
t TXT a
@@ b.zone whole
@ 60 SOA n h 2 2 3 4 5
b A 192.0.2.2
c CAA 0 issue \"cb\"
t 61 TXT a
@@ c.db whole
b A 192.0.2.1
c CAA 0 issue \"ca\"
=> 1
- example. 60 IN SOA n.example. h.example. 1 2 3 4 5
+ example. 60 IN SOA n.example. h.example. 2 2 3 4 5
- b.example. 60 IN A 192.0.2.1
+ b.example. 60 IN A 192.0.2.2
- c.example. 60 IN CAA 0 issue \"ca\"
+ c.example. 60 IN CAA 0 issue \"cb\"
- t.example. 60 IN TXT \"a\"
+ t.example. 61 IN TXT \"a\"
--
== changes_in_the_generic_form
diff --generic example. a.zone example. b.zone
@@ a.zone whole
@ 60 SOA n h 1 2 3 4 5
c CAA 0 issue \"ca\"
@@ b.zone whole
@ 60 SOA n h 1 2 3 4 5
c CAA 0 issue \"cb\"
=> 1
- c.example. 60 IN TYPE257 \\# 9 000569737375656361
+ c.example. 60 IN TYPE257 \\# 9 000569737375656362
--
== letters_of_names_in_data_are_no_difference
diff example. a.zone example. b.zone
@@ a.zone whole
@ 60 SOA n h 1 2 3 4 5
d DNAME New.Example.
@@ b.zone whole
@ 60 SOA n h 1 2 3 4 5
d DNAME new.example.
=> 0
--
== letters_of_names_in_data_are_an_exact_difference
diff --exact example. a.zone example. b.zone
@@ a.zone whole
@ 60 SOA n h 1 2 3 4 5
d DNAME New.Example.
@@ b.zone whole
@ 60 SOA n h 1 2 3 4 5
d DNAME new.example.
=> 1
- d.example. 60 IN DNAME New.Example.
+ d.example. 60 IN DNAME new.example.
--
== no_exact_difference_in_the_generic_form
diff --exact --generic example. a.zone example. a.zone
@@ a.zone whole
@ 60 SOA n h 1 2 3 4 5
=> 0
--
== first_zone_of_a_difference_is_refused
diff example. a.zone example. b.zone
@@ a.zone whole
c A 192.0.2.1
@@ b.zone whole
d A 192.0.2.1
=> 3
--
first: F20 NoTtl at a.zone:1: the record has no TTL
== second_zone_of_a_difference_can_not_be_read
diff example. a.zone example. b.zone
@@ a.zone whole
@ 60 SOA n h 1 2 3 4 5
=> 4
--
b.zone: can't be read
== second_input_is_refused
compare example. a.zone example. b.zone
@@ a.zone whole
@ 60 SOA n h 1 2 3 4 5
@@ b.zone whole
c A 192.0.2.1
=> 3
--
second: F20 NoTtl at b.zone:1: the record has no TTL
";

#[test]
fn files_are_read(rt: HostRuntime) -> Result<(), Fail> {
    check_table::<Running>(rt.alloc(), FILES)
}

const ZONE: &str = "\
@@ a.zone whole
@ 60 SOA n h 1 2 3 4 5
$INCLUDE b.db
@@ b.db whole
b A 192.0.2.1
@@ c.zone whole
@ 60 SOA n h 1 2 3 4 5
";

/// A writer that fails in the middle of the text, of the expanded text, of a line and of a difference.
#[test]
fn a_failing_writer_is_reported(rt: HostRuntime) -> Result<(), Fail> {
    let alloc = rt.alloc();
    for line in [
        "normalise example. a.zone",
        "normalise --words example. a.zone",
        "expand example. a.zone",
        "explain example. a.zone",
        "diff example. a.zone example. c.zone",
        "diff --generic example. a.zone example. c.zone",
        "check example. a.zone",
    ] {
        let mut writer = Narrow::new(alloc, 3, 10, true)?;
        let mut told = roomy(alloc)?;
        let mut folder = Folder {
            files: ZONE,
            each: usize::MAX,
        };
        match order_of(alloc, &words_of(alloc, line)?) {
            Ok(order) => {
                let status = run(alloc, &order, &mut folder, &mut writer, &mut told);
                check_same("the status", status, 4)?;
                check_octets("the line", &told, b"write failed\n")?;
            }
            Err(_) => return Err(Fail::from("no order")),
        }
    }
    Ok(())
}
