//! Quotes, parentheses, comments, escapes and line ends (RFC 1035 5.1).

pub(super) const FILES: &str = "\
== lines_inside_quotes_and_parentheses_are_counted x.
@ 60 SOA n h 1 2 3 4 5
t 60 TXT ( \"a;)
b\" ) ; c
u 60 A 10.0.0.300
=> F9 BadRdata at line 4
== quotes_parentheses_and_a_comment_in_one_entry x.
@ 60 SOA n h 1 2 3 4 5
t 60 TXT ( \"a;)
b\" ) ; c
u 60 A 10.0.0.3
=>
x. 60 IN SOA n.x. h.x. 1 2 3 4 5
t.x. 60 IN TXT \"a;)\\010b\"
u.x. 60 IN A 10.0.0.3
== lines_inside_quotes_and_parentheses_are_counted_class_written x.
@ 60 IN SOA n h 1 2 3 4 5
t 60 IN TXT ( \"a;)
b\" ) ; c
u 60 IN A 10.0.0.300
=> F9 BadRdata at line 4
== quotes_parentheses_and_a_comment_in_one_entry_class_written x.
@ 60 IN SOA n h 1 2 3 4 5
t 60 IN TXT ( \"a;)
b\" ) ; c
u 60 IN A 10.0.0.3
=>
x. 60 IN SOA n.x. h.x. 1 2 3 4 5
t.x. 60 IN TXT \"a;)\\010b\"
u.x. 60 IN A 10.0.0.3
== decimal_escape_cut_off_by_the_end x.
@ 60 SOA n h 1 2 3 4 5\r
a 60 TXT \\04\
=> F4 BadEscape at line 2
== last_line_without_a_line_feed x.
@ 60 SOA n h 1 2 3 4 5\r
a 60 TXT \\046\
=>
x. 60 IN SOA n.x. h.x. 1 2 3 4 5
a.x. 60 IN TXT \".\"
== decimal_escape_cut_off_by_the_end_class_written x.
@ 60 IN SOA n h 1 2 3 4 5\r
a 60 IN TXT \\04\
=> F4 BadEscape at line 2
== last_line_without_a_line_feed_class_written x.
@ 60 IN SOA n h 1 2 3 4 5\r
a 60 IN TXT \\046\
=>
x. 60 IN SOA n.x. h.x. 1 2 3 4 5
a.x. 60 IN TXT \".\"
== transfer_listing_as_printed_by_dig x.

; <<>> DiG 9.18.1 <<>> @10.0.0.1 x. AXFR
;; global options: +cmd
x.\t\t\t3600\tIN\tSOA\tn.x. h.x. 1 2 3 4 5
x.\t\t\t3600\tIN\tNS\tn.x.
x.\t\t\t3600\tIN\tSOA\tn.x. h.x. 1 2 3 4 5
;; Query time: 0 msec
;; SERVER: 10.0.0.1#53(10.0.0.1) (TCP)
;; XFR size: 3 records (messages 1, bytes 109)

=>
x. 3600 IN SOA n.x. h.x. 1 2 3 4 5
x. 3600 IN NS n.x.
== quoted_strings_without_blanks_between x.
@ 60 IN SOA n h 1 2 3 4 5
( t 60 IN TXT \"a\"b\"c\" )
=>
x. 60 IN SOA n.x. h.x. 1 2 3 4 5
t.x. 60 IN TXT \"a\" \"b\" \"c\"
== unclosed_quote x.
@ 60 IN SOA n h 1 2 3 4 5
t 60 IN TXT \"a
=> F14 UnclosedQuote at line 2
== open_parentheses_at_the_end x.
@ 60 IN SOA n h 1 2 3 4 5
( ( t
=> F15 UnbalancedParenthesis at line 2
== closing_parenthesis_at_depth_zero x.
@ 60 IN SOA n h 1 2 3 4 5
t )
=> F15 UnbalancedParenthesis at line 2
== bad_escape_before_a_closing_parenthesis x.
@ 60 IN SOA n h 1 2 3 4 5
t \\04 )
=> F4 BadEscape at line 2
== comment_ends_a_bare_item x.
@ 60 IN SOA n h 1 2 3 4 5
t 60 IN TXT a;b
; c ) \"
=>
x. 60 IN SOA n.x. h.x. 1 2 3 4 5
t.x. 60 IN TXT \"a\"
== escaped_quotes_in_strings x.
@ 60 SOA n h 1 2 3 4 5
t 60 TXT \"a\\\"b\" c\\\"d
=>
x. 60 IN SOA n.x. h.x. 1 2 3 4 5
t.x. 60 IN TXT \"a\\\"b\" \"c\\\"d\"
== empty_string_in_quotes x.
@ 60 SOA n h 1 2 3 4 5
t 60 TXT \"\"
=>
x. 60 IN SOA n.x. h.x. 1 2 3 4 5
t.x. 60 IN TXT \"\"
== escaped_semicolon_begins_no_comment x.
@ 60 SOA n h 1 2 3 4 5
t 60 TXT \\; \"a\\059b\"
=>
x. 60 IN SOA n.x. h.x. 1 2 3 4 5
t.x. 60 IN TXT \";\" \"a;b\"
== escaped_blank_ends_no_item x.
@ 60 SOA n h 1 2 3 4 5
t 60 TXT a\\ b
=>
x. 60 IN SOA n.x. h.x. 1 2 3 4 5
t.x. 60 IN TXT \"a b\"
== comment_without_a_line_feed_at_the_end x.
@ 60 SOA n h 1 2 3 4 5
k 60 A 10.0.0.1 ; c\
=>
x. 60 IN SOA n.x. h.x. 1 2 3 4 5
k.x. 60 IN A 10.0.0.1
== blank_lines_and_comments_only x.

 \t\r
; c
=> F42 NoSoa in the input
";
