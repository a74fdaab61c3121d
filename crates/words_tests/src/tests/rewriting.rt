//! What is written for files of which records stand in words, whole and fed in two pieces, and what
//! is told.
use std::alloc::Global;
use std::test::Fail;
use test_support::{
    Question, check, check_lines, check_octets, check_same, check_table, push_words, roomy,
};
use type_data::{
    DataFailing, DataItem, WordsFailing, WordsFault, certificate_mnemonic, further_type_of,
    read_data, type_mnemonic,
};
use zone_name::CasedName;
use zone_rdata::Item;
use zone_text::{FirstEntry, first_entry};
use zone_words::{Refusals, Rewriter, Rewritten, rewrite_file};

/// What a file under the origin `Example.` becomes, with what is told after it. It is the same
/// where the file is cut in two at any octet.
struct Rewriting;

/// Appends what is told of entries that state no data: how many there are, and the first.
fn push_told(alloc: Global, told: Refusals, out: &mut Vec<u8>) -> Result<(), Fail> {
    let (count, Some(first)) = (told.count, told.first) else {
        return Ok(());
    };
    push_words(alloc, out, format_args!("-- {count}: {first}\n"))
}

/// That a file becomes the same where it is fed in two pieces.
fn check_pieces(
    alloc: Global,
    origin: &CasedName,
    (front, back): (&[u8], &[u8]),
    whole: &Rewritten,
) -> Result<(), Fail> {
    let mut rewriter = Rewriter::new(alloc, origin);
    rewriter.feed(front)?;
    rewriter.feed(back)?;
    rewriter.finish()?;
    check_octets("a file in two pieces", rewriter.written(), &whole.text)?;
    check(rewriter.refusals() == whole.refusals, "the same refusals")
}

impl Question for Rewriting {
    fn answer(alloc: Global, asked: &'static str, out: &mut Vec<u8>) -> Result<(), Fail> {
        let origin = CasedName::from_text(b"Example.", None)?;
        let file = asked.as_bytes();
        let whole = rewrite_file(alloc, &origin, file)?;
        for first in 0..file.len() {
            check_pieces(alloc, &origin, file.split_at(first), &whole)?;
        }
        out.extend_from_slice(&whole.text)?;
        push_told(alloc, whole.refusals, out)
    }
}

/// Records of each type in words, and in the generic form (RFC 3597 5). Most are examples of RFC
/// 1183, 1876, 2672, 3123, 4025, 4034, 4255, 4408, 4701, 5155, 6698, 6742, 7043, 7477, 7553, 8659,
/// 8777, 8976 and 9460; those of NSEC3DSA, NSEC3RSASHA1 and ECCGOST are as BIND 9.18 reads them.
const TYPES: &str = "\
a HINFO PDP-11 UNIX => a TYPE13 \\# 12 065044502d313104554e4958
a RP louie.trantor.umd.edu. LAM1.people.umd.edu. => \
a TYPE17 \\# 44 056c6f756965077472616e746f7203756d640365647500044c414d310670656f706c6503756d640365\
647500
a AFSDB 1 bigbird.toaster.com. => a TYPE18 \\# 23 0001076269676269726407746f617374657203636f6d00
a X25 311061700956 => a TYPE19 \\# 13 0c333131303631373030393536
a ISDN 150862028003217 004 => a TYPE20 \\# 20 0f31353038363230323830303332313703303034
a ISDN 150862028003217 => a TYPE20 \\# 16 0f313530383632303238303033323137
a ISDN 150 004 => a TYPE20 \\# 8 0331353003303034
a RT 2 Relay.Prime.COM. => a TYPE21 \\# 19 00020552656c6179055072696d6503434f4d00
a LOC 42 21 54 N 71 06 18 W -24m 30m => a TYPE29 \\# 16 0033161389172dd070be15f000988d20
a LOC 42 21 43.952 N 71 5 6.344 W -24m 1m 200m => \
a TYPE29 \\# 16 001224138917069070bf2dd800988d20
a LOC 52 14 05 N 00 08 50 E 10m => a TYPE29 \\# 16 001216138b3556c88008165000989a68
a LOC 32 7 19 S 116 2 25 E 10m => a TYPE29 \\# 16 00121613791b7d2898e6486800989a68
a LOC 42 21 28.764 N 71 00 51.617 W -44m 2000m => \
a TYPE29 \\# 16 002516138916cb3c70c310df00988550
a KX 10 rt1.example.mil. => a TYPE36 \\# 19 000a03727431076578616d706c65036d696c00
a CERT PGP 0 0 AA== => a TYPE37 \\# 6 000300000000
a CERT PKIX 1 NSEC3RSASHA1 AA== => a TYPE37 \\# 6 000100010700
a DNAME frobozz-division.acme.example. => \
a TYPE39 \\# 31 1066726f626f7a7a2d6469766973696f6e0461636d65076578616d706c6500
a APL 1:192.168.32.0/21 !1:192.168.38.0/28 => a TYPE42 \\# 14 00011503c0a82000011c83c0a826
a DS 60485 5 1 2BB183AF5F22588179A53B0A 98631FAD1A292118 => \
a TYPE43 \\# 24 ec4505012bb183af5f22588179a53b0a98631fad1a292118
a DS 1 ECCGOST 1 0000000000000000000000000000000000000000 => \
a TYPE43 \\# 24 00010c010000000000000000000000000000000000000000
a SSHFP 2 1 123456789abcdef67890123456789abcdef67890 => \
a TYPE44 \\# 22 0201123456789abcdef67890123456789abcdef67890
a IPSECKEY 10 1 2 192.0.2.38 AQNRU3mG7TVTO2BkR47usntb102uFJtugbo6BSGvgqt4AQ== => \
a TYPE45 \\# 41 0a0102c0000226010351537986ed35533b6064478eeeb27b5bd74dae149b6e81ba3a0521af82ab7801
a IPSECKEY 10 0 2 . AQNRU3mG7TVTO2BkR47usntb102uFJtugbo6BSGvgqt4AQ== => \
a TYPE45 \\# 37 0a0002010351537986ed35533b6064478eeeb27b5bd74dae149b6e81ba3a0521af82ab7801
a IPSECKEY 10 3 2 mygateway.example.com. AQNRU3mG7TVTO2BkR47usntb102uFJtugbo6BSGvgqt4AQ== => \
a TYPE45 \\# 60 0a0302096d7967617465776179076578616d706c6503636f6d00010351537986ed35533b6064478eeeb27b5b\
d74dae149b6e81ba3a0521af82ab7801
a IPSECKEY 10 2 2 2001:0DB8:0:8002::2000:1 AQNRU3mG7TVTO2BkR47usntb102uFJtugbo6BSGvgqt4AQ== => \
a TYPE45 \\# 53 0a020220010db8000080020000000020000001010351537986ed35533b6064478eeeb27b5bd74dae149b6e81\
ba3a0521af82ab7801
a IPSECKEY 10 1 0 192.0.2.38 => a TYPE45 \\# 7 0a0100c0000226
a RRSIG A 5 3 86400 20030322173103 20030220173103 2642 example.com. oJB1W6WNGv+ldvQ3WDG0MQkg5IEhjR\
ip8WTrPYGv07h108dUKGMeDPKijVCHX3DDKdfb+v6oB9wfuh3DTJXUAfI/M0zmO/zz8bW0Rznl8O3tGNazPwQKkRN20XPXV6nw\
wfoXmJQbsLNrLfkGJ5D6fwFm8nN+6pBzeDQfsS3Ap3o= => \
a TYPE46 \\# 159 00010503000151803e7c9dd73e5510d70a52076578616d706c6503636f6d00a090755ba58d1affa57\
6f4375831b4310920e481218d18a9f164eb3d81afd3b875d3c75428631e0cf2a28d50875f70c329d7dbfafea807dc1fba1\
dc34c95d401f23f334ce63bfcf3f1b5b44739e5f0eded18d6b33f040a911376d173d757a9f0c1fa1798941bb0b36b2df90\
62790fa7f0166f2737eea907378341fb12dc0a77a
a NSEC host.example.com. A MX RRSIG NSEC TYPE1234 => \
a TYPE47 \\# 55 04686f7374076578616d706c6503636f6d000006400100000003041b00000000000000000000000000\
0000000000000000000000000020
a nsec host.example.com. A MX RRSIG NSEC TYPE1234 => \
a TYPE47 \\# 55 04686f7374076578616d706c6503636f6d000006400100000003041b00000000000000000000000000\
0000000000000000000000000020
a DNSKEY 256 3 5 AQPSKmynfzW4kyBv015MUG2DeIQ3Cbl+BBZH4b/0PY1kxkmvHjcZc8nokfzj31GajIQKY+5CptLr3buXA\
10hWqTkF7H6RfoRqXQeogmMHfpftf6zMv1LyBUgia7za6ZEzOJBOztyvhjL742iU/TpPSEDhm2SNKLijfUppn1UaNvv4w== =\
> \
a TYPE48 \\# 134 010003050103d22a6ca77f35b893206fd35e4c506d8378843709b97e041647e1bff43d8d64c649af1\
e371973c9e891fce3df519a8c840a63ee42a6d2ebddbb97035d215aa4e417b1fa45fa11a9741ea2098c1dfa5fb5feb332f\
d4bc8152089aef36ba644cce2413b3b72be18cbef8da253f4e93d2103866d9234a2e28df529a67d5468dbefe3
a DNSKEY 256 3 nsec3dsa AQAB => a TYPE48 \\# 7 01000306010001
a DHCID AAIBY2/AuCccgoJbsaxcQc9TUapptP69lOjxfNuVAA2kjEA= => \
a TYPE49 \\# 35 000201636fc0b8271c82825bb1ac5c41cf5351aa69b4febd94e8f17cdb95000da48c40
a NSEC3 1 1 12 aabbccdd 2t7b4g4vsa5smi47k61mv5bv1a22bojr MX DNSKEY NS SOA NSEC3PARAM RRSIG => \
a TYPE50 \\# 39 0101000c04aabbccdd14174eb2409fe28bcb4887a1836f957f0a8425e27b000722010000000290
a NSEC3PARAM 1 0 12 aabbccdd => a TYPE51 \\# 9 0100000c04aabbccdd
a TLSA 0 0 1 d2abde240d7cd3ee6b4b28c54df034b97983a1d16e8a410e4561cb106618e971 => \
a TYPE52 \\# 35 000001d2abde240d7cd3ee6b4b28c54df034b97983a1d16e8a410e4561cb106618e971
a HIP 2 200100107B1A74DF365639CC39F1D578 AwEAAbdxyhNuSutc5EMzxTs9LBPCIkOFH8cIvM4p9+LrV4e19WzK00+C\
I6zBCQTdtWsuxKbWIy87UOoJTwkUs7lBu+Upr1gsNrut79ryra+bSRGQb1slImA8YVJyuIDsj7kwzG7jnERNqnWxZ48AWkskm\
dHaVDP4BcelrTI3rMXdXF5D => \
a TYPE55 \\# 152 10020084200100107b1a74df365639cc39f1d57803010001b771ca136e4aeb5ce44333c53b3d2c13\
c22243851fc708bcce29f7e2eb5787b5f56ccad34f8223acc10904ddb56b2ec4a6d6232f3b50ea094f0914b3b941bbe52\
9af582c36bbadefdaf2adaf9b4911906f5b2522603c615272b880ec8fb930cc6ee39c444daa75b1678f005a4b2499d1da\
5433f805c7a5ad3237acc5dd5c5e43
a HIP 2 200100107B1A74DF365639CC39F1D578 AwEAAbdxyhNuSutc5EMzxTs9LBPCIkOFH8cIvM4p9+LrV4e19WzK00+C\
I6zBCQTdtWsuxKbWIy87UOoJTwkUs7lBu+Upr1gsNrut79ryra+bSRGQb1slImA8YVJyuIDsj7kwzG7jnERNqnWxZ48AWkskm\
dHaVDP4BcelrTI3rMXdXF5D rvs1.example.com. => \
a TYPE55 \\# 170 10020084200100107b1a74df365639cc39f1d57803010001b771ca136e4aeb5ce44333c53b3d2c13\
c22243851fc708bcce29f7e2eb5787b5f56ccad34f8223acc10904ddb56b2ec4a6d6232f3b50ea094f0914b3b941bbe52\
9af582c36bbadefdaf2adaf9b4911906f5b2522603c615272b880ec8fb930cc6ee39c444daa75b1678f005a4b2499d1da\
5433f805c7a5ad3237acc5dd5c5e430472767331076578616d706c6503636f6d00
a HIP 2 200100107B1A74DF365639CC39F1D578 AwEAAbdxyhNuSutc5EMzxTs9LBPCIkOFH8cIvM4p9+LrV4e19WzK00+C\
I6zBCQTdtWsuxKbWIy87UOoJTwkUs7lBu+Upr1gsNrut79ryra+bSRGQb1slImA8YVJyuIDsj7kwzG7jnERNqnWxZ48AWkskm\
dHaVDP4BcelrTI3rMXdXF5D rvs1.example.com. rvs2.example.com. => \
a TYPE55 \\# 188 10020084200100107b1a74df365639cc39f1d57803010001b771ca136e4aeb5ce44333c53b3d2c13\
c22243851fc708bcce29f7e2eb5787b5f56ccad34f8223acc10904ddb56b2ec4a6d6232f3b50ea094f0914b3b941bbe52\
9af582c36bbadefdaf2adaf9b4911906f5b2522603c615272b880ec8fb930cc6ee39c444daa75b1678f005a4b2499d1da\
5433f805c7a5ad3237acc5dd5c5e430472767331076578616d706c6503636f6d000472767332076578616d706c6503636\
f6d00
a CDS 0 0 0 00 => a TYPE59 \\# 5 0000000000
a CDNSKEY 0 3 0 AA== => a TYPE60 \\# 5 0000030000
a OPENPGPKEY AQMFBw== => a TYPE61 \\# 4 01030507
a CSYNC 66 3 A NS AAAA => a TYPE62 \\# 12 000000420003000460000008
a ZONEMD 2018031900 1 1 c68090d90a7aed716bc459f9340e3d7c1370d4d24b7e2fc3a1ddc0b9a87153b9a9713b3c9a\
e5cc27777f98b8e730044c => \
a TYPE63 \\# 54 7848b91c0101c68090d90a7aed716bc459f9340e3d7c1370d4d24b7e2fc3a1ddc0b9a87153b9a9713b\
3c9ae5cc27777f98b8e730044c
a SVCB 16 foo.example.com. port=53 => \
a TYPE64 \\# 25 001003666f6f076578616d706c6503636f6d00000300020035
a SVCB 1 foo.example.com. key667=\"hello\\210qoo\" => \
a TYPE64 \\# 32 000103666f6f076578616d706c6503636f6d00029b000968656c6c6fd2716f6f
a SVCB 16 foo.example.org. alpn=h2,h3-19 mandatory=ipv4hint,alpn ipv4hint=192.0.2.1 => \
a TYPE64 \\# 48 001003666f6f076578616d706c65036f7267000000000400010004000100090268320568332d313900\
040004c0000201
a SVCB 16 foo.example.org. alpn=\"f\\\\\\\\oo\\\\,bar,h2\" => \
a TYPE64 \\# 35 001003666f6f076578616d706c65036f7267000001000c08665c6f6f2c626172026832
a HTTPS 0 foo.example.com. => a TYPE65 \\# 19 000003666f6f076578616d706c6503636f6d00
a SPF \"v=spf1 +mx a:colo.example.com/28 -all\" => \
a TYPE99 \\# 38 25763d73706631202b6d7820613a636f6c6f2e6578616d706c652e636f6d2f3238202d616c6c
a NID 10 0014:4fff:ff20:ee64 => a TYPE104 \\# 10 000a00144fffff20ee64
a L32 10 10.1.2.0 => a TYPE105 \\# 6 000a0a010200
a L64 10 2001:0DB8:1140:1000 => a TYPE106 \\# 10 000a20010db811401000
a LP 10 l64-subnet1.example.com. => \
a TYPE107 \\# 27 000a0b6c36342d7375626e657431076578616d706c6503636f6d00
a EUI48 00-00-5e-00-53-2a => a TYPE108 \\# 6 00005e00532a
a TYPE108 00-00-5e-00-53-2a => a TYPE108 \\# 6 00005e00532a
a EUI64 00-00-5e-ef-10-00-00-2a => a TYPE109 \\# 8 00005eef1000002a
a URI 10 1 \"ftp://ftp1.example.com/public\" => \
a TYPE256 \\# 33 000a00016674703a2f2f667470312e6578616d706c652e636f6d2f7075626c6963
a CAA 0 issue \"ca1.example.net\" => a TYPE257 \\# 22 000569737375656361312e6578616d706c652e6e6574
a AMTRELAY 10 0 1 203.0.113.15 => a TYPE260 \\# 6 0a01cb00710f
a AMTRELAY 10 0 2 2001:DB8::15 => a TYPE260 \\# 18 0a0220010db8000000000000000000000015
a AMTRELAY 128 1 3 amtrelays.example.com. => \
a TYPE260 \\# 25 808309616d7472656c617973076578616d706c6503636f6d00
a AMTRELAY 10 1 0 . => a TYPE260 \\# 2 0a80
a SMIMEA 3 1 1 d2abde24 => a TYPE53 \\# 7 030101d2abde24
a MD host.example. => a TYPE3 \\# 14 04686f7374076578616d706c6500
a MF Host.example.net. => a TYPE4 \\# 18 04486f7374076578616d706c65036e657400
a MB host.example. => a TYPE7 \\# 14 04686f7374076578616d706c6500
a MG box.example. => a TYPE8 \\# 13 03626f78076578616d706c6500
a MR New-Name.example. => a TYPE9 \\# 18 084e65772d4e616d65076578616d706c6500
a MINFO req.example. err.example.net. => a TYPE14 \\# 30 03726571076578616d706c650003657272076578\
616d706c65036e657400
a NSAP-PTR host.example. => a TYPE23 \\# 14 04686f7374076578616d706c6500
a SIG A 8 2 3600 20230101000000 20221201000000 12345 Example. AQIDBA== => a TYPE24 \\# 31 0001080\
200000e1063b0cd006387ee803039074578616d706c650001020304
a KEY 256 3 8 AQIDBAUG => a TYPE25 \\# 10 01000308010203040506
a PX 10 a.b.example. MAP.example. => a TYPE26 \\# 28 000a01610162076578616d706c6500034d4150076578\
616d706c6500
a GPOS -32.6882 116.8652 10.0 => a TYPE27 \\# 23 082d33322e36383832083131362e383635320431302e30
a EID e32c 6f78 => a TYPE31 \\# 4 e32c6f78
a NIMLOC 32251a030067 => a TYPE32 \\# 6 32251a030067
a SINK 1 0 0 aGVsbG8= => a TYPE40 \\# 8 01000068656c6c6f
a NINFO foo \"bar b\" => a TYPE56 \\# 10 03666f6f056261722062
a RKEY 0 255 1 AQIDBAUG => a TYPE57 \\# 10 0000ff01010203040506
a TALINK a.example. b.example.net. => a TYPE58 \\# 26 0161076578616d706c65000162076578616d706c650\
36e657400
a RESINFO qnamemin exterr=15-17 infourl=https://resolver.example.com/guide => a TYPE261 \\# 65 08\
716e616d656d696e0c6578746572723d31352d31372a696e666f75726c3d68747470733a2f2f7265736f6c7665722e657\
8616d706c652e636f6d2f6775696465
a WALLET BTC bc1q => a TYPE262 \\# 9 034254430462633171
a TA 14 5 1 000102030405060708090a0b0c0d0e0f10111213 => a TYPE32768 \\# 24 000e050100010203040506\
0708090a0b0c0d0e0f10111213
a DSYNC CDS NOTIFY 5359 cds-scanner.example.net. => a TYPE66 \\# 30 003b0114ef0b6364732d7363616e6e6\
572076578616d706c65036e657400
a DSYNC CSYNC notify 53 . => a TYPE66 \\# 6 003e01003500
a DSYNC CDS 255 65535 . => a TYPE66 \\# 6 003bffffff00
a DLV 14 5 1 000102030405060708090a0b0c0d0e0f10111213 => a TYPE32769 \\# 24 000e05010001020304050\
60708090a0b0c0d0e0f10111213
";

#[test]
fn records_of_each_type(rt: HostRuntime) -> Result<(), Fail> {
    check_lines::<Rewriting>(rt.alloc(), TYPES)
}

/// Types in any order, more than once and of many windows, as BIND 9.18 writes them.
const BITMAPS: &str = "\
a NSEC . TYPE65534 => \
a TYPE47 \\# 35 00ff200000000000000000000000000000000000000000000000000000000000000002
a NSEC . TYPE65534 A TYPE256 MX TYPE65281 TYPE1 A TYPE1234 NS => \
a TYPE47 \\# 71 0000026001010180041b000000000000000000000000000000000000000000000000000020ff204000000000\
000000000000000000000000000000000000000000000000000002
a NSEC . TYPE65534 TYPE300 TYPE257 TYPE1000 A TYPE511 TYPE512 A TYPE300 => \
a TYPE47 \\# 107 0000014001204000000000080000000000000000000000000000000000000000000000000001020180031e00\
0000000000000000000000000000000000000000000000000000000080ff20000000000000000000000000000000000000\
0000000000000000000000000002
a CSYNC 1 0 NS A NS => a TYPE62 \\# 9 000000010000000160
";

#[test]
fn types_of_many_windows(rt: HostRuntime) -> Result<(), Fail> {
    check_lines::<Rewriting>(rt.alloc(), BITMAPS)
}

/// Files and what they become: `== ` stands before each file, `=>` after it.
const FILES: &str = "\
== $TTL 1
@ SOA a b 1 1 1 1 1
@ NS a
a A 10.0.0.1
@ DNSKEY 256 3 8 ( AQ==
b A 10.0.0.2
=>$TTL 1
@ SOA a b 1 1 1 1 1
@ NS a
a A 10.0.0.1
@ DNSKEY 256 3 8 ( AQ==
b A 10.0.0.2
== a\t60  in DS\t( 60485 5 1 ; of a key
 2BB183AF5F22588179A53B0A
 98631FAD1A292118 )  ; and its digest

 DS 1 8 2 00
=>a\t60  in TYPE43 \\# 24 ec4505012bb183af5f22588179a53b0a98631fad1a292118(; of a key

); and its digest

 TYPE43 \\# 5 0001080200
== a DS 1 8 2 00
$ORIGIN a..b
a DS 1 8 2 00
a DS 1 8 2 0
=>a TYPE43 \\# 5 0001080200
$ORIGIN a..b
a DS 1 8 2 00
a DS 1 8 2 0
== a DNAME C
$ORIGIN Sub
a DNAME C
a DNAME @
=>a TYPE39 \\# 11 0143074578616d706c6500
$ORIGIN Sub
a TYPE39 \\# 15 014303537562074578616d706c6500
a TYPE39 \\# 13 03537562074578616d706c6500
== a CH KX 10 b
a KX 10 b
a IN KX 10 b
a MX 10 b
a FOO 10 b
=>a CH KX 10 b
a KX 10 b
a IN TYPE36 \\# 13 000a0162074578616d706c6500
a MX 10 b
a FOO 10 b
== $TTL 1
a DS 1 8 2 0g
a DS 1 8 2 00
a TLSA 1 1 256 00
a TLSA 1 1 1
=>$TTL 1
a DS 1 8 2 0g
a TYPE43 \\# 5 0001080200
a TLSA 1 1 256 00
a TLSA 1 1 1
-- 3: line 2: DS, digest: not hexadecimal
== a CAA 0 issue \"a
b\"
b CAA 0 issue \";\"
=>a CAA 0 issue \"a
b\"
b TYPE257 \\# 8 000569737375653b
-- 1: line 1: CAA, data: a line feed within quotes
== a SVCB 1 . alpn= \"h2\"
a SVCB 1 . alpn=\"h2\"
=>a SVCB 1 . alpn= \"h2\"
a TYPE64 \\# 10 00010000010003026832
-- 1: line 1: SVCB, parameters: not a value
== a TYPE46 \\# 1 00
a rrsig ( \\# 1 ; of a key
 00 )
a TYPE43 1 8 2 00
=>a TYPE46 \\# 1 00
a TYPE46 ( \\# 1 ; of a key
 00 )
a TYPE43 \\# 5 0001080200
== a DS 1 8 2 00
a DS 1 8 2 00 )
a DS 1 8 2 00
=>a TYPE43 \\# 5 0001080200
a DS 1 8 2 00 )
a DS 1 8 2 00
";

#[test]
fn whole_files(rt: HostRuntime) -> Result<(), Fail> {
    check_table::<Rewriting>(rt.alloc(), FILES)
}

/// What is told of a record's words under the root: the field, and what is wrong with it.
struct Refusing;

impl Question for Refusing {
    fn answer(alloc: Global, asked: &'static str, out: &mut Vec<u8>) -> Result<(), Fail> {
        let file = format!(in alloc; "a {asked}")?;
        let rewritten = rewrite_file(alloc, &CasedName::root(), file.as_bytes())?;
        let first = rewritten.refusals.first.ok_or(asked)?;
        let (field, fault) = (first.field, first.fault);
        push_words(alloc, out, format_args!("{field}: {fault}"))
    }
}

/// Words that state no data, of each kind of field, and what is told of them.
const WRONG_WORDS: &str = "\
DS 60485 RSASHA1 1 => digest: nothing left
DS 65536 \"5\" 1 00 => key tag: too large
DS 60485 \"5\" 256 00 => algorithm: not a number
X25 311061700956 1 => psdn-address: items left over
RP \"a\" . => mailbox: not a name
DS 1 8 256 00 => digest type: too large
CSYNC 4294967296 0 => serial: too large
DS 1 RSASHA 2 00 => algorithm: not a number
CERT X509 0 0 AA== => type: not a number
DS 1 8 2 000 => digest: not hexadecimal
DS 1 8 2 00 \"00\" => digest: not hexadecimal
OPENPGPKEY AQ= => key: not base64
OPENPGPKEY AR== => key: not base64
OPENPGPKEY AQ== AQ== => key: not base64
RRSIG ANY 8 2 1 1 1 1 . AQ== => type covered: not a type
RRSIG A 8 2 1 20010229000000 1 1 . AQ== => expiration: not a time
RRSIG A 8 2 1 1 4294967296 1 . AQ== => inception: too large
RRSIG A 8 2 1 1 1 1 a..b AQ== => signer: not a name: a label is empty
NSEC . => types: nothing left
NSEC . A OPT => types: not a type
NSEC3 1 0 1 abc 2t7b A => salt: not hexadecimal
NSEC3PARAM 1 0 1 00000000000000000000000000000000000000000000000000000000000000000000000000000000\
0000000000000000000000000000000000000000000000000000000000000000000000000000000000000000000000000\
0000000000000000000000000000000000000000000000000000000000000000000000000000000000000000000000000\
0000000000000000000000000000000000000000000000000000000000000000000000000000000000000000000000000\
0000000000000000000000000000000000000000000000000000000000000000000000000000000000000000000000000\
00000000000000000000000000000000000000000000 => salt: too long
NSEC3 1 0 1 - 2t7w A => next: not base32hex
NSEC3 1 0 1 - 2t7 A => next: not base32hex
NSEC3 1 0 1 - 00000000000000000000000000000000000000000000000000000000000000000000000000000000000\
0000000000000000000000000000000000000000000000000000000000000000000000000000000000000000000000000\
0000000000000000000000000000000000000000000000000000000000000000000000000000000000000000000000000\
0000000000000000000000000000000000000000000000000000000000000000000000000000000000000000000000000\
000000000000000000000000000000000000 A => next: too long
CAA 0 a-b c => tag: not a tag
CAA 0 issue => value: nothing left
CAA 0 issue a b => value: items left over
URI 1 1 a => target: not quoted
DSYNC CDS PUSH 53 . => scheme: not a number
DSYNC CDS 256 53 . => scheme: too large
L32 1 10.1.2 => locator32: not an address
NID 1 1:2:3 => nodeid: not an address
EUI48 00-00-5e-00-53 => address: not an address
EUI64 00-00-5e-ef-10-00-00-2g => address: not an address
APL 1:10.0.0.0/33 => data: not a prefix
APL 3:10.0.0.0/8 => data: not a prefix
LOC 42 21 54 N 71 06 18 => data: not a location
LOC 90 0 0.001 N 0 W 0m => data: not a location
LOC 1 N 1 W 42849672.96m => data: not a location
LOC 1 N 1 W 0m 90000000.01m => data: not a location
LOC => data: nothing left
IPSECKEY 10 4 2 . AQ== => gateway type: too large
IPSECKEY 10 0 2 a. AQ== => gateway: not a name
IPSECKEY 10 2 2 192.0.2.38 AQ== => gateway: not an address
IPSECKEY 10 1 2 192.0.2.38 => public key: nothing left
IPSECKEY 10 1 0 192.0.2.38 AQ== => public key: items left over
AMTRELAY 10 2 1 203.0.113.15 => discovery optional: too large
AMTRELAY 10 x 1 203.0.113.15 => discovery optional: not a number
AMTRELAY 10 0 4 203.0.113.15 => type: too large
AMTRELAY 10 0 3 a..b => relay: not a name: a label is empty
HIP 256 20 AQ== => pk algorithm: too large
HIP 2 => hit: nothing left
HIP 2 2 AQ== => hit: not hexadecimal
HIP 2 \"20\" AQ== => hit: not hexadecimal
HIP 2 20 => public key: nothing left
HIP 2 20 AR== => public key: not base64
HIP 2 20 \"AQ==\" => public key: not base64
HIP 2 20 AQ== rvs a..b => rendezvous servers: not a name: a label is empty
HIP 2 20 AQ== \"rvs\" => rendezvous servers: not a name
HIP 2 0000000000000000000000000000000000000000000000000000000000000000000000000000000000000000000\
0000000000000000000000000000000000000000000000000000000000000000000000000000000000000000000000000\
0000000000000000000000000000000000000000000000000000000000000000000000000000000000000000000000000\
0000000000000000000000000000000000000000000000000000000000000000000000000000000000000000000000000\
0000000000000000000000000000000000000000000000000000000000000000000000000000000000000000000000000\
000000000000000000000000000000000 AQ== => hit: too long
SVCB 1 . foo=1 => parameters: not a key
SVCB 1 . key65535=1 => parameters: not a key
SVCB 1 . port=1 port=2 => parameters: a repeated key
SVCB 1 . port=65536 => parameters: not a value
SVCB 1 . mandatory=port => parameters: a mandatory key is missing
";

#[test]
fn words_that_state_no_data(rt: HostRuntime) -> Result<(), Fail> {
    check_lines::<Refusing>(rt.alloc(), WRONG_WORDS)
}

/// That these octets are written, and that the file has ended or not.
fn check_written(rewriter: &Rewriter, written: &[u8], is_finished: bool) -> Result<(), Fail> {
    check_octets("what is written", rewriter.written(), written)?;
    check(
        rewriter.is_finished() == is_finished,
        "whether the file has ended",
    )
}

/// That of so many octets that were fed these wait.
fn check_waiting(rewriter: &Rewriter, fed: u64, waiting: &[u8]) -> Result<(), Fail> {
    check_octets("what waits", rewriter.undecided(), waiting)?;
    check_same("octets that were fed", rewriter.fed(), fed)
}

/// What is written of a file in two pieces is taken after the first: the entry that a line feed has
/// ended, while the next one waits.
#[test]
fn what_is_written_is_taken(rt: HostRuntime) -> Result<(), Fail> {
    let mut rewriter = Rewriter::new(rt.alloc(), &CasedName::root());
    rewriter.feed(b"a DS 1 8 2 00\nb DS 1 ")?;
    check_written(&rewriter, b"a TYPE43 \\# 5 0001080200\n", false)?;
    check_waiting(&rewriter, 21, b"b DS 1 ")?;
    rewriter.clear_written();
    rewriter.feed(b"8 2 00")?;
    rewriter.finish()?;
    check_written(&rewriter, b"b TYPE43 \\# 5 0001080200", true)
}

/// A rewriter that begins anew writes another file, under the origin of that one.
#[test]
fn a_rewriter_begins_anew(rt: HostRuntime) -> Result<(), Fail> {
    let mut rewriter = Rewriter::new(rt.alloc(), &CasedName::root());
    rewriter.feed(b"$ORIGIN z.\na RP h .\nb RP")?;
    rewriter.restart(&CasedName::from_text(b"y.", None)?);
    rewriter.feed(b"a RP h .\n")?;
    rewriter.finish()?;
    check_written(&rewriter, b"a TYPE17 \\# 6 016801790000\n", true)
}

/// An entry by itself, of a rewriter that was fed another file before.
#[test]
fn an_entry_is_a_whole_file(rt: HostRuntime) -> Result<(), Fail> {
    let entry = b"a RP h .\n";
    let mut items = Vec::new(rt.alloc());
    let FirstEntry::Whole(len) = first_entry(entry, &mut items)? else {
        return Err(Fail::from("the entry is whole"));
    };
    if len != entry.len() {
        return Err(Fail::from("the entry is all"));
    }
    let mut rewriter = Rewriter::new(rt.alloc(), &CasedName::root());
    rewriter.feed(b"$ORIGIN z.\na RP h .\nb RP")?;
    rewriter.rewrite_entry(&CasedName::from_text(b"y.", None)?, entry, &items)?;
    check_waiting(&rewriter, 9, b"")?;
    check_written(&rewriter, b"a TYPE17 \\# 6 016801790000\n", true)
}

/// Words of numbers, as RFC 4398 2.1 and the registry of RFC 6895 3.1 have them.
#[test]
fn words_of_numbers(_rt: HostRuntime) -> Result<(), Fail> {
    let further = further_type_of(b"type257").ok_or("257")?;
    check_octets("a further type", further.mnemonic.as_bytes(), b"CAA")?;
    check(further_type_of(b"A").is_none(), "A is no further type")?;
    check_octets("a type", type_mnemonic(1).ok_or("1")?, b"A")?;
    check_octets("a certificate", certificate_mnemonic(3).ok_or("3")?, b"PGP")
}

#[test]
fn failings_of_words_are_shown(rt: HostRuntime) -> Result<(), Fail> {
    let mut shown = roomy(rt.alloc())?;
    for failing in [
        WordsFailing::Fault(WordsFault::NotAKey),
        WordsFailing::OutOfMemory,
    ] {
        push_words(rt.alloc(), &mut shown, format_args!("{failing}\n"))?;
    }
    check_octets("the words", &shown, b"not a key\nout of memory\n")
}

/// An item without quotes, after a blank.
fn bare(text: &'static [u8]) -> DataItem<'static> {
    DataItem {
        item: Item::Bare(text),
        touches: false,
    }
}

/// The DS record of RFC 4034 5.4, whose digest is two items, and without its last items.
#[test]
fn data_is_read(rt: HostRuntime) -> Result<(), Fail> {
    let further = further_type_of(b"DS").ok_or("DS")?;
    let digest: [&'static [u8]; 2] = [b"2BB183AF5F22588179A53B0A", b"98631FAD1A292118"];
    let items = [
        bare(b"60485"),
        bare(b"5"),
        bare(b"1"),
        bare(digest[0]),
        bare(digest[1]),
    ];
    let root = CasedName::root();
    let mut octets = roomy(rt.alloc())?;
    read_data(&further.fields, &items, &root, &mut octets).map_err(|_| "the record")?;
    check_octets(
        "DS",
        &octets,
        b"\xec\x45\x05\x01\x2b\xb1\x83\xaf\x5f\x22\x58\x81\x79\xa5\x3b\x0a\x98\x63\x1f\xad\x1a\x29\x21\x18",
    )?;
    match read_data(&further.fields, &items[..2], &root, &mut octets) {
        Err(DataFailing::Fault { field, fault }) => {
            check_octets("the field", field.as_bytes(), b"digest type")?;
            check(fault == WordsFault::NothingLeft, "nothing is left")?;
            check_octets("the data", &octets, b"")
        }
        _ => Err(Fail::from("two items are no DS record")),
    }
}
