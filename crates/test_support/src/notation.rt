//! Messages and streams in a notation of words.
//!
//! A line of a stream is a message. Its parts, between which `; ` stands, are in the order of the
//! wire: `header` with the ID, the flags and the four counts in hexadecimal digits, `question` with
//! name, type and class, and records as in a master file, with owner, TTL, class, type and data.
//! `n@12` is the label `n` and a pointer to offset 12 (RFC 1035 4.1.4), `#` begins octets in
//! hexadecimal digits, and a number in data has 32 bits in an SOA and 16 bits elsewhere. The
//! lengths of messages (RFC 1035 4.2.2), labels and data are counted here.
use crate::tables::parted;
use std::alloc::Global;
use std::test::Fail;

/// Parts that have a name: the question and the three answers of the transfer of a small zone, at
/// the offsets 12, 19, 59 and 73 of its message.
static NAMED: &[(&str, &str)] = &[
    ("QUESTION", "question x. AXFR IN"),
    ("OPENING", "@12 3600 IN SOA n@12 h@12 1 2 3 4 5"),
    ("SERVER", "@12 3600 IN NS @31"),
    ("CLOSING", "@12 3600 IN SOA @31 @35 1 2 3 4 5"),
];

/// A part that has a name, spelled out.
fn spelled(part: &'static str) -> &'static str {
    for (name, spelling) in NAMED {
        if part == *name {
            return spelling;
        }
    }
    part
}

/// Types and classes that have a word.
static CODES: &[(&str, u16)] = &[
    ("A", 1),
    ("IN", 1),
    ("NS", 2),
    ("CH", 3),
    ("SOA", 6),
    ("TXT", 16),
    ("SRV", 33),
    ("NAPTR", 35),
    ("OPT", 41),
    ("AXFR", 252),
];

/// The number of a type or class.
fn code_of(word: &str) -> Result<u16, Fail> {
    for (name, code) in CODES {
        if word == *name {
            return Ok(*code);
        }
    }
    let digits = word.trim_start_matches("CLASS").trim_start_matches("TYPE");
    Ok(digits.parse::<u16>()?)
}

/// The value of a hexadecimal digit.
fn digit(octet: u8) -> Result<u8, Fail> {
    match octet {
        b'0'..=b'9' => Ok(octet - b'0'),
        b'a'..=b'f' => Ok(octet - b'a' + 10),
        _ => Err(Fail::from("no digit")),
    }
}

/// The number of hexadecimal digits.
fn number_of(digits: &str) -> Result<u16, Fail> {
    let mut number = 0;
    for octet in digits.bytes() {
        number = number << 4 | u16::from(digit(octet)?);
    }
    Ok(number)
}

/// Appends the octets of hexadecimal digits.
fn push_octets(out: &mut Vec<u8>, digits: &str) -> Result<(), Fail> {
    for pair in digits.as_bytes().chunks(2) {
        let [high, low] = pair else {
            return Err(Fail::from("half an octet"));
        };
        out.push(digit(*high)? << 4 | digit(*low)?)?;
    }
    Ok(())
}

/// The octets of hexadecimal digits.
pub fn octets_of(alloc: Global, digits: &str) -> Result<Vec<u8>, Fail> {
    let mut octets = Vec::new(alloc);
    push_octets(&mut octets, digits)?;
    Ok(octets)
}

/// Appends a number of 16 bits.
fn push_number(out: &mut Vec<u8>, number: u16) -> Result<(), Fail> {
    Ok(out.extend_from_slice(&number.to_be_bytes())?)
}

/// Appends octets after their number.
fn push_counted(out: &mut Vec<u8>, octets: &[u8]) -> Result<(), Fail> {
    push_number(out, u16::try_from(octets.len())?)?;
    Ok(out.extend_from_slice(octets)?)
}

/// Appends a label after its length.
fn push_label(out: &mut Vec<u8>, label: &str) -> Result<(), Fail> {
    out.push(u8::try_from(label.len())?)?;
    Ok(out.extend_from_slice(label.as_bytes())?)
}

/// Appends the labels of a name, without its end.
fn push_labels(out: &mut Vec<u8>, labels: &str) -> Result<(), Fail> {
    for label in labels.split('.') {
        if !label.is_empty() {
            push_label(out, label)?;
        }
    }
    Ok(())
}

/// Appends a name: its labels, and then the root or a pointer.
fn push_name(out: &mut Vec<u8>, name: &str) -> Result<(), Fail> {
    let Some((labels, offset)) = name.split_once('@') else {
        push_labels(out, name)?;
        return Ok(out.push(0)?);
    };
    push_labels(out, labels)?;
    push_number(out, 0xc000 | offset.parse::<u16>()?)
}

/// Appends a field: octets, a name, or a number of 16 or of 32 bits.
fn push_field(out: &mut Vec<u8>, word: &str, is_wide: bool) -> Result<(), Fail> {
    if let Some(digits) = word.strip_prefix('#') {
        push_octets(out, digits)
    } else if word.contains('@') || word.contains('.') {
        push_name(out, word)
    } else if is_wide {
        Ok(out.extend_from_slice(&word.parse::<u32>()?.to_be_bytes())?)
    } else {
        push_number(out, word.parse::<u16>()?)
    }
}

/// Appends a question.
fn push_question(message: &mut Vec<u8>, words: &str) -> Result<(), Fail> {
    let (name, codes) = parted(words, " ")?;
    push_field(message, name, false)?;
    for word in codes.split(' ') {
        push_number(message, code_of(word)?)?;
    }
    Ok(())
}

/// Appends type, class and TTL.
fn push_front(message: &mut Vec<u8>, kind: &str, class: &str, ttl: &str) -> Result<(), Fail> {
    push_number(message, code_of(kind)?)?;
    push_number(message, code_of(class)?)?;
    push_field(message, ttl, true)
}

/// Appends a record. A word that is missing is empty, which is no name and no number.
fn push_record(alloc: Global, message: &mut Vec<u8>, words: &str) -> Result<(), Fail> {
    let mut words = words.split(' ');
    push_field(message, words.next().unwrap_or(""), false)?;
    let ttl = words.next().unwrap_or("");
    let class = words.next().unwrap_or("");
    let kind = words.next().unwrap_or("");
    push_front(message, kind, class, ttl)?;
    let mut data = Vec::new(alloc);
    for word in words {
        push_field(&mut data, word, kind == "SOA")?;
    }
    push_counted(message, &data)
}

/// Appends the fields of a header.
fn push_header(message: &mut Vec<u8>, fields: &str) -> Result<(), Fail> {
    for field in fields.split(' ') {
        push_number(message, number_of(field)?)?;
    }
    Ok(())
}

/// Appends a part of a message.
fn push_part(alloc: Global, message: &mut Vec<u8>, part: &str) -> Result<(), Fail> {
    match part.split_once(' ') {
        Some(("header", fields)) => push_header(message, fields),
        Some(("question", words)) => push_question(message, words),
        Some(_) => push_record(alloc, message, part),
        None => push_field(message, part, false),
    }
}

/// The octets of a message.
pub fn message_of(alloc: Global, line: &'static str) -> Result<Vec<u8>, Fail> {
    let mut message = Vec::new(alloc);
    for part in line.split("; ") {
        push_part(alloc, &mut message, spelled(part))?;
    }
    Ok(message)
}

/// Appends a line of a stream. One that begins with `#` is octets outside any message.
fn push_line(alloc: Global, stream: &mut Vec<u8>, line: &'static str) -> Result<(), Fail> {
    match line.strip_prefix('#') {
        Some(digits) => push_octets(stream, digits),
        None => push_counted(stream, &message_of(alloc, line)?),
    }
}

/// The octets of a stream.
pub fn stream_of(alloc: Global, lines: &'static str) -> Result<Vec<u8>, Fail> {
    let mut stream = Vec::new(alloc);
    for line in lines.lines() {
        push_line(alloc, &mut stream, line)?;
    }
    Ok(stream)
}
