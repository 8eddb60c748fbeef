// Reads a line of a run.
use crate::plan::{Layer, Medium, Wanted};
use anyhow::anyhow;
use ciphers::choice::Cipher;
use hashing::choice::AnyHash;
use stacks::call::Call;
use std::alloc::Global;

// What a line says.
#[derive(Drop)]
pub(crate) enum Line {
    Run(u64),
    Medium(Medium),
    Layer(Layer),
    // the figures of the stack
    Stack { count: u64, length: u64, layer: u64 },
    // a call to put, and the answer that it must have
    Call(Call, Wanted),
    End(Vec<u8>),
}

// What a read's buffer holds before it.
pub(crate) const FILL: u8 = 0xa5;

fn number(word: &str) -> anyhow::Result<u64> {
    Ok(word.parse::<u64>()?)
}

// What follows a name in a word.
fn named<'a>(word: &'a str, name: &str) -> anyhow::Result<&'a str> {
    word.strip_prefix(name)
        .ok_or_else(|| anyhow!("another name is wanted"))
}

// The number that follows a name.
fn figure(word: &str, name: &str) -> anyhow::Result<u64> {
    number(named(word, name)?)
}

// By ranges: capitals, which `to_digit` takes, are no digits here.
fn digit(c: u8) -> anyhow::Result<u8> {
    match c {
        b'0'..=b'9' => Ok(c - b'0'),
        b'a'..=b'f' => Ok(c - b'a' + 10),
        _ => Err(anyhow!("no hex digit")),
    }
}

// The bytes that a word writes, two digits to a byte; a dash writes none.
fn hex(heap: Global, word: &str) -> anyhow::Result<Vec<u8>> {
    let mut bytes = Vec::new(heap);
    if word == "-" {
        return Ok(bytes);
    }
    for pair in word.as_bytes().chunks(2) {
        match pair {
            [high, low] => bytes.push(digit(*high)? << 4 | digit(*low)?)?,
            _ => return Err(anyhow!("half a byte")),
        }
    }
    Ok(bytes)
}

// The numbers that a word lists, with commas between them; a dash lists none.
fn list(heap: Global, word: &str) -> anyhow::Result<Vec<u64>> {
    let mut numbers = Vec::new(heap);
    if word == "-" {
        return Ok(numbers);
    }
    for part in word.split(',') {
        numbers.push(number(part)?)?;
    }
    Ok(numbers)
}

fn medium(
    heap: Global,
    count: &str,
    length: &str,
    spares: &str,
    bad: &str,
    bytes: &str,
) -> anyhow::Result<Line> {
    Ok(Line::Medium(Medium {
        count: figure(count, "count=")?,
        length: named(length, "length=")?.parse::<usize>()?,
        spares: named(spares, "spares=")?.parse::<usize>()?,
        bad: list(heap, named(bad, "bad=")?)?,
        bytes: hex(heap, named(bytes, "bytes=")?)?,
    }))
}

fn encipher(heap: Global, cipher: &str, hash: &str, key: &str) -> anyhow::Result<Line> {
    let cipher = match cipher {
        "aes" => Cipher::Aes,
        "speck" => Cipher::Speck,
        _ => return Err(anyhow!("no cipher")),
    };
    let hash = match hash {
        "horner" => AnyHash::Horner,
        "brw" => AnyHash::Brw,
        _ => return Err(anyhow!("no hash")),
    };
    let key = hex(heap, key)?;
    let key = <[u8; 16]>::try_from(key.as_slice()).map_err(|_| anyhow!("no key"))?;
    Ok(Line::Layer(Layer::Encipher { cipher, hash, key }))
}

// The read of a sector into a buffer of this length.
fn read(heap: Global, sector: &str, length: &str) -> anyhow::Result<Call> {
    let length = length.parse::<usize>()?;
    Ok(Call::Read(number(sector)?, vec![in heap; FILL; length]?))
}

fn write(heap: Global, sector: &str, bytes: &str) -> anyhow::Result<Call> {
    Ok(Call::Write(number(sector)?, hex(heap, bytes)?))
}

fn refused(refusal: &str, sector: &str, layer: &str) -> anyhow::Result<Wanted> {
    Ok(Wanted::Refused {
        number: number(refusal)?,
        sector: number(sector)?,
        layer: number(layer)?,
    })
}

// A call that must be answered.
fn read_call(heap: Global, words: &[&str]) -> anyhow::Result<Line> {
    let (call, wanted) = match words {
        ["state", n, "=", state] => (Call::State(number(n)?), Wanted::State(number(state)?)),
        ["read", n, length, "=", "0", bytes] => {
            (read(heap, n, length)?, Wanted::Bytes(hex(heap, bytes)?))
        }
        ["write", n, bytes, "=", "0"] => (write(heap, n, bytes)?, Wanted::Done),
        _ => return read_refused(heap, words),
    };
    Ok(Line::Call(call, wanted))
}

// A read or a write that must be refused.
fn read_refused(heap: Global, words: &[&str]) -> anyhow::Result<Line> {
    let [call @ .., why, "sector", sector, "layer", layer] = words else {
        return Err(anyhow!("no such line"));
    };
    let call = match call {
        ["read", n, length, "="] => read(heap, n, length)?,
        ["write", n, bytes, "="] => write(heap, n, bytes)?,
        _ => return Err(anyhow!("no such line")),
    };
    Ok(Line::Call(call, refused(why, sector, layer)?))
}

// What the words of a line say.
fn read_words(heap: Global, words: &[&str]) -> anyhow::Result<Line> {
    match words {
        ["run", name] => Ok(Line::Run(number(name)?)),
        ["spared", count, length, spares, bad, bytes] => {
            medium(heap, count, length, spares, bad, bytes)
        }
        ["encipher", cipher, hash, key] => encipher(heap, cipher, hash, key),
        ["window", base, count] => Ok(Line::Layer(Layer::Window {
            base: number(base)?,
            count: number(count)?,
        })),
        ["stack", count, length, layer] => Ok(Line::Stack {
            count: figure(count, "count=")?,
            length: figure(length, "length=")?,
            layer: figure(layer, "layer=")?,
        }),
        ["end", bytes] => Ok(Line::End(hex(heap, named(bytes, "bytes=")?)?)),
        _ => read_call(heap, words),
    }
}

// What a line says; nothing, if it is empty or a remark. It comes without the LF that ends it.
pub(crate) fn read_line(heap: Global, line: &str) -> anyhow::Result<Option<Line>> {
    if line.is_empty() || line.starts_with('#') {
        return Ok(None);
    }
    let words: Vec<&str> = line.split(' ').collect(heap)?;
    Ok(Some(read_words(heap, &words)?))
}
