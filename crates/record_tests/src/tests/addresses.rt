//! Addresses of IPv4 and IPv6, and the short text of the latter (RFC 1035 3.4.1, RFC 4291 2.2, RFC
//! 5952 4).
use crate::tests::items::Stated;
use std::test::Fail;
use test_support::check_lines;

/// Texts that are shortened or written out; the examples of RFC 4291 2.2 and RFC 5952 4, from `::`
/// on; and what is no address of IPv6, the empty word among it.
const IPV6: &str = "\
IN AAAA ::FFFF:10.0.0.1 => ::ffff:a00:1
IN AAAA 0:0:0:0:0:ffff:a00:1 => ::ffff:a00:1
IN AAAA 0:0:0:0:0:0:0:0 => ::
IN AAAA 1:0:0:0:0:0:0:0 => 1::
IN AAAA 0:0:0:1:0:0:0:1 => ::1:0:0:0:1
IN AAAA 1:0:0:2:0:0:0:3 => 1:0:0:2::3
IN AAAA 1:0:2:3:4:5:6:7 => 1:0:2:3:4:5:6:7
IN AAAA 1::2:3:4:5:6:7 => 1:0:2:3:4:5:6:7
IN AAAA 0:1:2:3:4:5:0:0 => 0:1:2:3:4:5::
IN AAAA 2001:0DB8::0001 => 2001:db8::1
IN AAAA 1:2:3:4:5:6:7:: => 1:2:3:4:5:6:7:0
IN AAAA ::2:3:4:5:6:7:8 => 0:2:3:4:5:6:7:8
IN AAAA 1:2:3:4:5:6:010.0.0.1 => 1:2:3:4:5:6:a00:1
IN AAAA 1:2:0:0:3:4:5:6 => 1:2::3:4:5:6
IN AAAA :: => ::
IN AAAA ::1 => ::1
IN AAAA 0:0:0:0:0:0:13.1.68.3 => ::d01:4403
IN AAAA 2001:DB8:0:0:8:800:200C:417A => 2001:db8::8:800:200c:417a
IN AAAA FF01:0:0:0:0:0:0:101 => ff01::101
IN AAAA ABCD:EF01:2345:6789:ABCD:EF01:2345:6789 => abcd:ef01:2345:6789:abcd:ef01:2345:6789
IN AAAA 2001:0db8::0001 => 2001:db8::1
IN AAAA 2001:db8:0:0:0:0:2:1 => 2001:db8::2:1
IN AAAA 2001:db8::1:1:1:1:1 => 2001:db8:0:1:1:1:1:1
IN AAAA 2001:0:0:1:0:0:0:1 => 2001:0:0:1::1
IN AAAA 2001:db8:0:0:1:0:0:1 => 2001:db8::1:0:0:1
IN AAAA 2001:db8:aaaa:bbbb:cccc:dddd:eeee:AAAA => 2001:db8:aaaa:bbbb:cccc:dddd:eeee:aaaa
IN AAAA 1:2:3:4:5:6:7::8 => BadRdata
IN AAAA 1::2::3 => BadRdata
IN AAAA 12345:: => BadRdata
IN AAAA ::: => BadRdata
IN AAAA 1:2:3:4:5:6:7 => BadRdata
IN AAAA ::ffff:10.0.0.256 => BadRdata
IN AAAA ::10.0.0.1:1 => BadRdata
IN AAAA 10.0.0.1:: => BadRdata
IN AAAA 10.0.0.1 => BadRdata
IN AAAA ::1%1 => BadRdata
IN AAAA ::1/64 => BadRdata
IN AAAA 1: => BadRdata
IN AAAA  => BadRdata
IN AAAA \"::1\" => BadRdata
";

#[test]
fn addresses_of_ipv6(rt: HostRuntime) -> Result<(), Fail> {
    check_lines::<Stated>(rt.alloc(), IPV6)
}

/// Addresses of IPv4, and what is none, the empty word among it.
const IPV4: &str = "\
IN A 010.000.00.001 => 10.0.0.1
IN A 255.255.255.255 => 255.255.255.255
IN A 10.0.0 => BadRdata
IN A 10.0.0.256 => BadRdata
IN A 10.0.0.1.1 => BadRdata
IN A 10.0.0.1. => BadRdata
IN A 10..0.1 => BadRdata
IN A 0x0a.0.0.1 => BadRdata
IN A  => BadRdata
IN A => BadRdata
IN A 10.0.0.1 10.0.0.2 => BadRdata
IN A \"10.0.0.1\" => BadRdata
";

#[test]
fn addresses_of_ipv4(rt: HostRuntime) -> Result<(), Fail> {
    check_lines::<Stated>(rt.alloc(), IPV4)
}
