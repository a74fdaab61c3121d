//! `$ORIGIN` and `$TTL`, refused directives, and what a record may omit (RFC 1035 5.1, RFC 2308 4).

pub(super) const FILES: &str = "\
== ttl_directive_before_the_last_stated_ttl x.
@ 60 SOA n h 1 2 3 4 5
$TTL 300
 NS n
=>
x. 60 IN SOA n.x. h.x. 1 2 3 4 5
x. 300 IN NS n.x.
== last_stated_ttl_without_a_directive x.
@ 60 SOA n h 1 2 3 4 5
 NS n
=>
x. 60 IN SOA n.x. h.x. 1 2 3 4 5
x. 60 IN NS n.x.
== minimum_of_the_soa_as_ttl x.
@ SOA n h 1 2 3 4 5
 NS n
=>
x. 5 IN SOA n.x. h.x. 1 2 3 4 5
x. 5 IN NS n.x.
== no_ttl_before_the_soa x.
@ NS n
@ SOA n h 1 2 3 4 5
=> F20 NoTtl at line 1
== include_is_refused x.
@ 60 SOA n h 1 2 3 4 5
$INCLUDE f
=> F16 IncludeDirective at line 2
== relative_origins_are_nested x.
@ 60 SOA n h 1 2 3 4 5
$ORIGIN a
b 60 NS n
$origin b
c 60 NS n
=>
x. 60 IN SOA n.x. h.x. 1 2 3 4 5
b.a.x. 60 IN NS n.a.x.
c.b.a.x. 60 IN NS n.b.a.x.
== origin_directive_without_an_item x.
@ 60 SOA n h 1 2 3 4 5
$ORIGIN
=> F18 BadDirective at line 2
== ttl_directive_with_a_quoted_item x.
@ 60 SOA n h 1 2 3 4 5
$TTL \"5\"
=> F18 BadDirective at line 2
== ttl_directive_over_31_bits x.
@ 60 SOA n h 1 2 3 4 5
$TTL 2147483648
=> F21 BadTtl at line 2
== generate_is_unknown x.
@ 60 SOA n h 1 2 3 4 5
$GENERATE 1-2 a
=> F17 UnknownDirective at line 2
== second_ttl_is_read_as_the_type x.
@ 60 SOA n h 1 2 3 4 5
a 60 60 A 10.0.0.1
=> F7 UnknownType at line 2
== second_class_is_read_as_the_type x.
@ 60 SOA n h 1 2 3 4 5
a IN IN A 10.0.0.1
=> F7 UnknownType at line 2
== entry_ends_before_its_type x.
@ 60 SOA n h 1 2 3 4 5
a 60
=> F7 UnknownType at line 2
== quoted_owner x.
@ 60 SOA n h 1 2 3 4 5
\"a\" 60 A 10.0.0.1
=> F19 NoOwner at line 2
== directive_after_a_blank_is_a_record x.
@ 60 SOA n h 1 2 3 4 5
 $ORIGIN y.
=> F7 UnknownType at line 2
== omitted_owner_in_the_first_line x.
 NS n
=> F19 NoOwner at line 1
== minimum_over_31_bits_as_ttl x.
@ SOA n h 1 2 3 4 2147483648
=> F21 BadTtl at line 1
== class_before_ttl x.
@ 60 SOA n h 1 2 3 4 5
a IN 60 A 10.0.0.1
=>
x. 60 IN SOA n.x. h.x. 1 2 3 4 5
a.x. 60 IN A 10.0.0.1
== include_without_an_item x.
@ 60 SOA n h 1 2 3 4 5
$include
=> F16 IncludeDirective at line 2
== origin_directive_with_two_items x.
@ 60 SOA n h 1 2 3 4 5
$ORIGIN a b
=> F18 BadDirective at line 2
== origin_directive_with_a_bad_name x.
@ 60 SOA n h 1 2 3 4 5
$ORIGIN a..b
=> F1 EmptyLabel at line 2
== ttl_directive_with_a_word x.
@ 60 SOA n h 1 2 3 4 5
$TTL x
=> F21 BadTtl at line 2
== directive_word_after_a_parenthesis_is_an_owner x.
@ 60 SOA n h 1 2 3 4 5
( $ORIGIN 60 A 10.0.0.1 )
=>
x. 60 IN SOA n.x. h.x. 1 2 3 4 5
\\$origin.x. 60 IN A 10.0.0.1
== dollar_sign_alone_is_unknown x.
@ 60 SOA n h 1 2 3 4 5
$
=> F17 UnknownDirective at line 2
== origin_directive_keeps_the_last_owner x.
@ 60 SOA n h 1 2 3 4 5
a 60 A 10.0.0.1
$ORIGIN y
 60 A 10.0.0.2
=>
x. 60 IN SOA n.x. h.x. 1 2 3 4 5
a.x. 60 IN A 10.0.0.1
a.x. 60 IN A 10.0.0.2
== last_stated_ttl_of_another_owner x.
@ 60 SOA n h 1 2 3 4 5
a 300 A 10.0.0.1
b A 10.0.0.1
=>
x. 60 IN SOA n.x. h.x. 1 2 3 4 5
a.x. 300 IN A 10.0.0.1
b.x. 300 IN A 10.0.0.1
== soa_need_not_be_first_nor_the_origin_its_owner x.
a.y. 60 IN A 10.0.0.1
y. 60 IN SOA n h 1 2 3 4 5
=>
y. 60 IN SOA n.x. h.x. 1 2 3 4 5
a.y. 60 IN A 10.0.0.1
";
