//! What is shown for lines whose data stands in the generic form, and for texts of such lines,
//! whole and fed in two pieces.
use std::alloc::Global;
use std::test::Fail;
use test_support::{Question, check_lines, check_octets, check_table};
use type_data::{further_type_of, print_data};
use words_print::{WordsPrinter, print_line, print_words};
use zone_name::CasedName;
use zone_words::rewrite_file;

/// The words that a record in the generic form is shown in, which are rewritten as that record.
struct RecordInWords;

/// What stands before the type of each record.
const FRONT: &str = "a. 3600 IN ";

impl Question for RecordInWords {
    fn answer(alloc: Global, asked: &'static str, out: &mut Vec<u8>) -> Result<(), Fail> {
        let line = format!(in alloc; "{FRONT}{asked}\n")?;
        let shown = print_line(alloc, line.as_bytes())?;
        let back = rewrite_file(alloc, &CasedName::root(), &shown)?;
        check_octets(asked, &back.text, line.as_bytes())?;
        let words = shown.strip_prefix(FRONT.as_bytes()).ok_or(asked)?;
        Ok(out.extend_from_slice(words.strip_suffix(b"\n").ok_or(asked)?)?)
    }
}

/// Records of each type in the generic form (RFC 3597 5) and in words, most of them examples of the
/// RFCs. The words are those that `named-compilezone` of BIND 9.18 prints, and for LOC and AMTRELAY
/// those of RFC 1876 and RFC 8777, but for the letter case of digits, blanks within items, leading
/// zeros and the name of `dohpath`.
const TYPES: &str = "\
TYPE13 \\# 12 065044502d313104554e4958 => HINFO \"PDP-11\" \"UNIX\"
TYPE17 \\# 44 056c6f756965077472616e746f7203756d640365647500044c414d310670656f706c6503756d640365\
647500 => RP louie.trantor.umd.edu. LAM1.people.umd.edu.
TYPE18 \\# 23 0001076269676269726407746f617374657203636f6d00 => AFSDB 1 bigbird.toaster.com.
TYPE19 \\# 13 0c333131303631373030393536 => X25 \"311061700956\"
TYPE20 \\# 20 0f31353038363230323830303332313703303034 => ISDN \"150862028003217\" \"004\"
TYPE21 \\# 19 00020552656c6179055072696d6503434f4d00 => RT 2 Relay.Prime.COM.
TYPE36 \\# 19 000a03727431076578616d706c65036d696c00 => KX 10 rt1.example.mil.
TYPE37 \\# 6 000300000000 => CERT PGP 0 0 AA==
TYPE39 \\# 31 1066726f626f7a7a2d6469766973696f6e0461636d65076578616d706c6500 => DNAME frobozz-di\
vision.acme.example.
TYPE42 \\# 14 00011503c0a82000011c83c0a826 => APL 1:192.168.32.0/21 !1:192.168.38.0/28
TYPE43 \\# 24 ec4505012bb183af5f22588179a53b0a98631fad1a292118 => DS 60485 5 1 2bb183af5f2258817\
9a53b0a98631fad1a292118
TYPE44 \\# 22 0201123456789abcdef67890123456789abcdef67890 => SSHFP 2 1 123456789abcdef678901234\
56789abcdef67890
TYPE46 \\# 159 00010503000151803e7c9dd73e5510d70a52076578616d706c6503636f6d00a090755ba58d1affa57\
6f4375831b4310920e481218d18a9f164eb3d81afd3b875d3c75428631e0cf2a28d50875f70c329d7dbfafea807dc1fb\
a1dc34c95d401f23f334ce63bfcf3f1b5b44739e5f0eded18d6b33f040a911376d173d757a9f0c1fa1798941bb0b36b2\
df9062790fa7f0166f2737eea907378341fb12dc0a77a => RRSIG A 5 3 86400 20030322173103 2003022017310\
3 2642 example.com. oJB1W6WNGv+ldvQ3WDG0MQkg5IEhjRip8WTrPYGv07h108dUKGMeDPKijVCHX3DDKdfb+v6oB9wf\
uh3DTJXUAfI/M0zmO/zz8bW0Rznl8O3tGNazPwQKkRN20XPXV6nwwfoXmJQbsLNrLfkGJ5D6fwFm8nN+6pBzeDQfsS3Ap3o=
TYPE47 \\# 55 04686f7374076578616d706c6503636f6d000006400100000003041b00000000000000000000000000\
0000000000000000000000000020 => NSEC host.example.com. A MX RRSIG NSEC TYPE1234
TYPE48 \\# 134 010003050103d22a6ca77f35b893206fd35e4c506d8378843709b97e041647e1bff43d8d64c649af1\
e371973c9e891fce3df519a8c840a63ee42a6d2ebddbb97035d215aa4e417b1fa45fa11a9741ea2098c1dfa5fb5feb33\
2fd4bc8152089aef36ba644cce2413b3b72be18cbef8da253f4e93d2103866d9234a2e28df529a67d5468dbefe3 => D\
NSKEY 256 3 5 AQPSKmynfzW4kyBv015MUG2DeIQ3Cbl+BBZH4b/0PY1kxkmvHjcZc8nokfzj31GajIQKY+5CptLr3buXA1\
0hWqTkF7H6RfoRqXQeogmMHfpftf6zMv1LyBUgia7za6ZEzOJBOztyvhjL742iU/TpPSEDhm2SNKLijfUppn1UaNvv4w==
TYPE49 \\# 35 000201636fc0b8271c82825bb1ac5c41cf5351aa69b4febd94e8f17cdb95000da48c40 => DHCID AA\
IBY2/AuCccgoJbsaxcQc9TUapptP69lOjxfNuVAA2kjEA=
TYPE50 \\# 39 0101000c04aabbccdd14174eb2409fe28bcb4887a1836f957f0a8425e27b000722010000000290 =\
> NSEC3 1 1 12 aabbccdd 2t7b4g4vsa5smi47k61mv5bv1a22bojr NS SOA MX RRSIG DNSKEY NSEC3PARAM
TYPE51 \\# 9 0100000c04aabbccdd => NSEC3PARAM 1 0 12 aabbccdd
TYPE52 \\# 35 000001d2abde240d7cd3ee6b4b28c54df034b97983a1d16e8a410e4561cb106618e971 => TLS\
A 0 0 1 d2abde240d7cd3ee6b4b28c54df034b97983a1d16e8a410e4561cb106618e971
TYPE55 \\# 152 10020084200100107b1a74df365639cc39f1d57803010001b771ca136e4aeb5ce44333c53b3d2c13c\
22243851fc708bcce29f7e2eb5787b5f56ccad34f8223acc10904ddb56b2ec4a6d6232f3b50ea094f0914b3b941bbe52\
9af582c36bbadefdaf2adaf9b4911906f5b2522603c615272b880ec8fb930cc6ee39c444daa75b1678f005a4b2499d1d\
a5433f805c7a5ad3237acc5dd5c5e43 => HIP 2 200100107b1a74df365639cc39f1d578 AwEAAbdxyhNuSutc5EMzxT\
s9LBPCIkOFH8cIvM4p9+LrV4e19WzK00+CI6zBCQTdtWsuxKbWIy87UOoJTwkUs7lBu+Upr1gsNrut79ryra+bSRGQb1slIm\
A8YVJyuIDsj7kwzG7jnERNqnWxZ48AWkskmdHaVDP4BcelrTI3rMXdXF5D
TYPE55 \\# 188 10020084200100107b1a74df365639cc39f1d57803010001b771ca136e4aeb5ce44333c53b3d2c13c\
22243851fc708bcce29f7e2eb5787b5f56ccad34f8223acc10904ddb56b2ec4a6d6232f3b50ea094f0914b3b941bbe52\
9af582c36bbadefdaf2adaf9b4911906f5b2522603c615272b880ec8fb930cc6ee39c444daa75b1678f005a4b2499d1d\
a5433f805c7a5ad3237acc5dd5c5e430472767331076578616d706c6503636f6d000472767332076578616d706c65036\
36f6d00 => HIP 2 200100107b1a74df365639cc39f1d578 AwEAAbdxyhNuSutc5EMzxTs9LBPCIkOFH8cIvM4p9+LrV4\
e19WzK00+CI6zBCQTdtWsuxKbWIy87UOoJTwkUs7lBu+Upr1gsNrut79ryra+bSRGQb1slImA8YVJyuIDsj7kwzG7jnERNqn\
WxZ48AWkskmdHaVDP4BcelrTI3rMXdXF5D rvs1.example.com. rvs2.example.com.
TYPE59 \\# 5 0000000000 => CDS 0 0 0 00
TYPE60 \\# 5 0000030000 => CDNSKEY 0 3 0 AA==
TYPE61 \\# 4 01030507 => OPENPGPKEY AQMFBw==
TYPE62 \\# 12 000000420003000460000008 => CSYNC 66 3 A NS AAAA
TYPE63 \\# 54 7848b91c0101c68090d90a7aed716bc459f9340e3d7c1370d4d24b7e2fc3a1ddc0b9a87153b9a9713b\
3c9ae5cc27777f98b8e730044c => ZONEMD 2018031900 1 1 c68090d90a7aed716bc459f9340e3d7c1370d4d24b7e\
2fc3a1ddc0b9a87153b9a9713b3c9ae5cc27777f98b8e730044c
TYPE64 \\# 25 001003666f6f076578616d706c6503636f6d00000300020035 => SVCB 16 foo.example.com. por\
t=53
TYPE64 \\# 32 000103666f6f076578616d706c6503636f6d00029b000968656c6c6fd2716f6f => SVCB 1 foo.exa\
mple.com. key667=\"hello\\210qoo\"
TYPE64 \\# 48 001003666f6f076578616d706c65036f7267000000000400010004000100090268320568332d313900\
040004c0000201 => SVCB 16 foo.example.org. mandatory=alpn,ipv4hint alpn=\"h2,h3-19\" ipv4hint=19\
2.0.2.1
TYPE64 \\# 35 001003666f6f076578616d706c65036f7267000001000c08665c6f6f2c626172026832 => SVCB 1\
6 foo.example.org. alpn=\"f\\\\\\\\oo\\\\,bar,h2\"
TYPE65 \\# 19 000003666f6f076578616d706c6503636f6d00 => HTTPS 0 foo.example.com.
TYPE99 \\# 38 25763d73706631202b6d7820613a636f6c6f2e6578616d706c652e636f6d2f3238202d616c6c => SP\
F \"v=spf1 +mx a:colo.example.com/28 -all\"
TYPE104 \\# 10 000a00144fffff20ee64 => NID 10 0014:4fff:ff20:ee64
TYPE105 \\# 6 000a0a010200 => L32 10 10.1.2.0
TYPE106 \\# 10 000a20010db811401000 => L64 10 2001:0db8:1140:1000
TYPE107 \\# 27 000a0b6c36342d7375626e657431076578616d706c6503636f6d00 => LP 10 l64-subnet1.examp\
le.com.
TYPE108 \\# 6 00005e00532a => EUI48 00-00-5e-00-53-2a
TYPE109 \\# 8 00005eef1000002a => EUI64 00-00-5e-ef-10-00-00-2a
TYPE256 \\# 33 000a00016674703a2f2f667470312e6578616d706c652e636f6d2f7075626c6963 => URI 10 1 \"\
ftp://ftp1.example.com/public\"
TYPE257 \\# 22 000569737375656361312e6578616d706c652e6e6574 => CAA 0 issue \"ca1.example.net\"
TYPE53 \\# 7 030101d2abde24 => SMIMEA 3 1 1 d2abde24
TYPE29 \\# 16 0033161389172dd070be15f000988d20 => LOC 42 21 54.000 N 71 6 18.000 W -24m 30m 1000\
0m 10m
TYPE29 \\# 16 001224138917069070bf2dd800988d20 => LOC 42 21 43.952 N 71 5 6.344 W -24m 1m 200m 1\
0m
TYPE29 \\# 16 00121613791b7d2898e6486800989a68 => LOC 32 7 19.000 S 116 2 25.000 E 10m 1m 10000\
m 10m
TYPE45 \\# 41 0a0102c0000226010351537986ed35533b6064478eeeb27b5bd74dae149b6e81ba3a0521af82ab780\
1 => IPSECKEY 10 1 2 192.0.2.38 AQNRU3mG7TVTO2BkR47usntb102uFJtugbo6BSGvgqt4AQ==
TYPE45 \\# 37 0a0002010351537986ed35533b6064478eeeb27b5bd74dae149b6e81ba3a0521af82ab7801 => IPSE\
CKEY 10 0 2 . AQNRU3mG7TVTO2BkR47usntb102uFJtugbo6BSGvgqt4AQ==
TYPE45 \\# 60 0a0302096d7967617465776179076578616d706c6503636f6d00010351537986ed35533b6064478eee\
b27b5bd74dae149b6e81ba3a0521af82ab7801 => IPSECKEY 10 3 2 mygateway.example.com. AQNRU3mG7TVTO2B\
kR47usntb102uFJtugbo6BSGvgqt4AQ==
TYPE45 \\# 53 0a020220010db8000080020000000020000001010351537986ed35533b6064478eeeb27b5bd74dae14\
9b6e81ba3a0521af82ab7801 => IPSECKEY 10 2 2 2001:db8:0:8002::2000:1 AQNRU3mG7TVTO2BkR47usntb102u\
FJtugbo6BSGvgqt4AQ==
TYPE45 \\# 7 0a0100c0000226 => IPSECKEY 10 1 0 192.0.2.38
TYPE260 \\# 6 0a01cb00710f => AMTRELAY 10 0 1 203.0.113.15
TYPE260 \\# 18 0a0220010db8000000000000000000000015 => AMTRELAY 10 0 2 2001:db8::15
TYPE260 \\# 25 808309616d7472656c617973076578616d706c6503636f6d00 => AMTRELAY 128 1 3 amtrelays.\
example.com.
TYPE260 \\# 2 0a80 => AMTRELAY 10 1 0 .
TYPE3 \\# 14 04686f7374076578616d706c6500 => MD host.example.
TYPE4 \\# 18 04486f7374076578616d706c65036e657400 => MF Host.example.net.
TYPE7 \\# 14 04686f7374076578616d706c6500 => MB host.example.
TYPE8 \\# 13 03626f78076578616d706c6500 => MG box.example.
TYPE9 \\# 18 084e65772d4e616d65076578616d706c6500 => MR New-Name.example.
TYPE14 \\# 30 03726571076578616d706c650003657272076578616d706c65036e657400 => MINFO req.example\
. err.example.net.
TYPE23 \\# 14 04686f7374076578616d706c6500 => NSAP-PTR host.example.
TYPE24 \\# 31 0001080200000e1063b0cd006387ee803039074578616d706c650001020304 => SIG A 8 2 3600 20\
230101000000 20221201000000 12345 Example. AQIDBA==
TYPE25 \\# 10 01000308010203040506 => KEY 256 3 8 AQIDBAUG
TYPE26 \\# 28 000a01610162076578616d706c6500034d4150076578616d706c6500 => PX 10 a.b.example. MAP.\
example.
TYPE27 \\# 23 082d33322e36383832083131362e383635320431302e30 => GPOS \"-32.6882\" \"116.8652\" \"\
10.0\"
TYPE31 \\# 4 e32c6f78 => EID e32c6f78
TYPE32 \\# 6 32251a030067 => NIMLOC 32251a030067
TYPE40 \\# 8 01000068656c6c6f => SINK 1 0 0 aGVsbG8=
TYPE56 \\# 10 03666f6f056261722062 => NINFO \"foo\" \"bar b\"
TYPE57 \\# 10 0000ff01010203040506 => RKEY 0 255 1 AQIDBAUG
TYPE58 \\# 26 0161076578616d706c65000162076578616d706c65036e657400 => TALINK a.example. b.example\
.net.
TYPE261 \\# 65 08716e616d656d696e0c6578746572723d31352d31372a696e666f75726c3d68747470733a2f2f7265\
736f6c7665722e6578616d706c652e636f6d2f6775696465 => RESINFO \"qnamemin\" \"exterr=15-17\" \"infou\
rl=https://resolver.example.com/guide\"
TYPE262 \\# 9 034254430462633171 => WALLET \"BTC\" \"bc1q\"
TYPE32768 \\# 24 000e0501000102030405060708090a0b0c0d0e0f10111213 => TA 14 5 1 000102030405060708\
090a0b0c0d0e0f10111213
TYPE66 \\# 30 003b0114ef0b6364732d7363616e6e6572076578616d706c65036e657400 => DSYNC CDS NOTIFY 5359 \
cds-scanner.example.net.
TYPE66 \\# 6 003bffffff00 => DSYNC CDS 255 65535 .
TYPE32769 \\# 24 000e0501000102030405060708090a0b0c0d0e0f10111213 => DLV 14 5 1 00010203040506070\
8090a0b0c0d0e0f10111213
";

/// Data at the edges of what has words. Times of after 2038 are from Python's `datetime`.
const EDGES: &str = "\
TYPE64 \\# 23 0001000006001020010db8000000000000000000000001 => SVCB 1 . ipv6hint=2001:db8::1
TYPE65 \\# 42 00010000010003026832000200000005000401020304000700102f646e732d71756572797b3f646e73\
7d => HTTPS 1 . alpn=\"h2\" no-default-alpn ech=AQIDBA== dohpath=\"/dns-query{?dns}\"
TYPE65 \\# 7 00010000080000 => HTTPS 1 . ohttp
TYPE64 \\# 10 00010000030003003500 => SVCB 1 . key3=\"\\0005\\000\"
TYPE64 \\# 16 000100000400000009000109000a0000 => SVCB 1 . key4 key9=\"\\009\" key10
TYPE64 \\# 25 000100000000040003000400030002003500040004c0000201 => SVCB 1 . mandatory=port,ipv4\
hint port=53 ipv4hint=192.0.2.1
TYPE64 \\# 15 000100000000020005000300020035 => SVCB 1 . key0=\"\\000\\005\" port=53
TYPE64 \\# 25 000100000000040004000300030002003500040004c0000201 => SVCB 1 . key0=\"\\000\\004\
\\000\\003\" port=53 ipv4hint=192.0.2.1
TYPE64 \\# 9 000100000100020268 => SVCB 1 . key1=\"\\002h\"
TYPE50 \\# 26 0100000000140123456789abcdef0123456789abcdef01234567 => NSEC3 1 0 0 - 04hkaps9lf6u\
u0938ljojaudts0i6hb7
TYPE62 \\# 6 000000010000 => CSYNC 1 0
TYPE42 \\# 0 => APL
TYPE42 \\# 10 0002208620010db80001 => APL !2:2001:db8:1::/32
TYPE42 \\# 8 0001000000028080 => APL 1:0.0.0.0/0 !2:::/128
TYPE39 \\# 9 0361202e012801c800 => DNAME a\\032\\..\\(.\\200.
TYPE257 \\# 7 00056973737565 => CAA 0 issue \"\"
TYPE20 \\# 3 023132 => ISDN \"12\"
TYPE13 \\# 7 03612262025c09 => HINFO \"a\\\"b\" \"\\\\\\009\"
TYPE46 \\# 26 00410d0200000e10ffffffff0000000000010161000102030405 => RRSIG HTTPS 13 2 3600 2106\
0207062815 19700101000000 1 a. AQIDBAU=
TYPE46 \\# 21 01000d0200000e10f4d41f80f4d41f7f000100ffee => RRSIG URI 13 2 3600 21000301000000 2\
1000228235959 1 . /+4=
TYPE46 \\# 21 00010d0200000e1038bbb4c004102f81000100ffee => RRSIG A 13 2 3600 20000229120000 197\
20229000001 1 . /+4=
TYPE37 \\# 6 000900010200 => CERT 9 1 2 AA==
";

#[test]
fn records_in_words(rt: HostRuntime) -> Result<(), Fail> {
    check_lines::<RecordInWords>(rt.alloc(), TYPES)?;
    check_lines::<RecordInWords>(rt.alloc(), EDGES)
}

/// What is shown for a text, and so where it is cut in two at any octet.
struct TextInWords;

/// That a text is shown the same where it is fed in two pieces.
fn check_pieces(alloc: Global, (front, back): (&[u8], &[u8]), whole: &[u8]) -> Result<(), Fail> {
    let mut printer = WordsPrinter::new(alloc);
    printer.feed(front)?;
    let mut shown = printer.written().to_vec(alloc)?;
    printer.clear_written();
    printer.feed(back)?;
    printer.finish()?;
    shown.extend_from_slice(printer.written())?;
    check_octets("a text in two pieces", &shown, whole)
}

impl Question for TextInWords {
    fn answer(alloc: Global, asked: &'static str, out: &mut Vec<u8>) -> Result<(), Fail> {
        let text = asked.as_bytes();
        let shown = print_words(alloc, text)?;
        for first in 0..text.len() {
            check_pieces(alloc, text.split_at(first), &shown)?;
        }
        Ok(out.extend_from_slice(&shown)?)
    }
}

/// Lines that stay: of other types, of data that is none of its type, of a generic form that isn't
/// the canonical one, and of strings that look like a type and its data.
const STAY: &str = "\
a. 3600 IN A 10.0.0.1
a. 3600 IN TXT \"\\\\# 4 0a000001\"
a. 3600 IN TYPE1 \\# 4 0a000001
a. 3600 IN TYPE65280 \\# 1 00
a. 3600 CH TYPE36 \\# 4 00010161
a. 3600 CH TYPE36 \\# 5 0001016100
a. 3600 IN TYPE43 \\# 4 00010802
a. 3600 IN TYPE43 \\# 5 000108020
a. 3600 IN TYPE43 \\# 6 0001080200
a. 3600 IN TYPE43 \\# 5 000108020A
a. 3600 IN TYPE43 \\# 05 0001080200
a. 3600 IN TYPE43  \\# 5 0001080200
a. 3600 IN TYPE43 \\# 5 00010802 00
a. 3600 IN TYPE043 \\# 5 0001080200
a. 3600 IN type43 \\# 5 0001080200
a. 3600 IN TYPE43 \\# 5 0001080200 ; a key
a. 3600 IN TYPE47 \\# 3 016100
a. 3600 IN TYPE47 \\# 5 0161000000
a. 3600 IN TYPE46 \\# 20 00000d0200000e1000000000000000000001 00
a. 3600 IN TYPE46 \\# 21 00ff0d0200000e100000000000000000000100ffee
a. 3600 IN TYPE39 \\# 2 c000
a. 3600 IN TYPE257 \\# 2 0000
a. 3600 IN TYPE64 \\# 17 0001000003000200350003000200350000
a. 3600 IN TYPE64 \\# 13 00010000030002003500020000
a. 3600 IN TYPE64 \\# 7 000100ffff0000
a. 3600 IN TYPE45 \\# 8 0a0100c000022600
a. 3600 IN TYPE260 \\# 3 0a8000
a. 3600 IN TYPE42 \\# 8 00011504c0a82000
a. 3600 IN TYPE42 \\# 6 00012102c0a8
a. 3600 IN TYPE42 \\# 9 00012005c0a8260101
a. 3600 IN TYPE42 \\# 6 00031002c0a8
a. 3600 IN TYPE42 \\# 5 00011502c0
a. 3600 IN TYPE29 \\# 16 0133161389172dd070be15f000988d20
a. 3600 IN DS 1 8 2 00
a. 3600 IN TXT IN TYPE43 \\# 5 0001080200

";

/// Lines of differences between texts, and what is shown for them. The last line of each but the
/// first lacks its line feed.
const TEXTS: &str = "\
== 3c3
< a. 3600 IN TYPE43 \\# 5 0001080200
---
> a. 3600 IN TYPE43 \\# 5 0002080200
@@ -1,3 +1,3 @@
 a. 3600 IN TYPE256 \\# 5 0001000261
-a. 3600 IN TYPE52 \\# 4 03010100
+a. 3600 CLASS32 TYPE52 \\# 4 03010101
IN TYPE43 \\# 5 0001080200
! x y\tCH TYPE43 \\# 5 0001080200
=>3c3
< a. 3600 IN DS 1 8 2 00
---
> a. 3600 IN DS 2 8 2 00
@@ -1,3 +1,3 @@
 a. 3600 IN URI 1 2 \"a\"
-a. 3600 IN TLSA 3 1 1 00
+a. 3600 CLASS32 TLSA 3 1 1 01
IN DS 1 8 2 00
! x y\tCH DS 1 8 2 00
== a. 3600 IN TYPE43 \\# 5 0001080200=>a. 3600 IN DS 1 8 2 00\
== a\\.b. 1H IN TYPE43 \\# 5 0001080200
a. ( 3600 ) IN TYPE43 \\# 5 0001080200=>a\\.b. 1H IN DS 1 8 2 00
a. ( 3600 ) IN DS 1 8 2 00\
== > a. 3600 IN A 10.0.0.1
> a. 3600 IN TYPE43 \\# 5 0001080200=>> a. 3600 IN A 10.0.0.1
> a. 3600 IN DS 1 8 2 00\
== > a. 3600 IN TYPE43 \\# 5=>> a. 3600 IN TYPE43 \\# 5\
== < a. 3600 CH TYPE64 \\# 3 000100
> a. 3600 IN TYPE64 \\# 3 000100=>< a. 3600 CH TYPE64 \\# 3 000100
> a. 3600 IN SVCB 1 .\
== =>";

#[test]
fn texts_in_words(rt: HostRuntime) -> Result<(), Fail> {
    check_octets(
        "lines that stay",
        &print_words(rt.alloc(), STAY.as_bytes())?,
        STAY.as_bytes(),
    )?;
    check_table::<TextInWords>(rt.alloc(), TEXTS)
}

/// The data of RFC 4034 5.4, whose digits are printed in lower case.
#[test]
fn words_of_data(rt: HostRuntime) -> Result<(), Fail> {
    let octets = [
        0xec, 0x45, 5, 1, 0x2b, 0xb1, 0x83, 0xaf, 0x5f, 0x22, 0x58, 0x81, 0x79, 0xa5, 0x3b, 0x0a,
        0x98, 0x63, 0x1f, 0xad, 0x1a, 0x29, 0x21, 0x18,
    ];
    let further = further_type_of(b"DS").ok_or("DS")?;
    let mut words = Vec::new(rt.alloc());
    print_data(further.fields, &octets, &mut words).map_err(|_| "no words")?;
    check_octets(
        "DS",
        &words,
        b" 60485 5 1 2bb183af5f22588179a53b0a98631fad1a292118",
    )
}
