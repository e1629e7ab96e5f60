// Answers that are up to two numbers.
ghost use Rattle.std.specs.Prelude.{◌≡◌};
ghost use Rattle.answers.specs.Got.{found, refused_as, one_got, two_got, flag_got, written_got, passed_got};

use octets::bytes::{ByteReader, ByteWriter};
use octets::error::Error;

// For C: up to two numbers, and that of a refusal, or 0.
#[repr(C)]
#[derive(Clone, Copy)]
pub struct Got {
    pub number: u8,
    pub first: usize,
    pub second: usize,
}

pub fn found(first: usize, second: usize) -> Got
    ensures { result ≡ found first second }
{
    Got {
        number: 0,
        first,
        second,
    }
}

pub fn refused(e: Error) -> Got
    ensures { result ≡ refused_as e }
{
    Got {
        number: e.number(),
        first: 0,
        second: 0,
    }
}

pub fn one_number(answer: Result<usize, Error>) -> Got
    ensures { result ≡ one_got answer }
{
    match answer {
        Ok(first) => found(first, 0),
        Err(e) => refused(e),
    }
}

pub fn two_numbers(answer: Result<(usize, usize), Error>) -> Got
    ensures { result ≡ two_got answer }
{
    match answer {
        Ok((first, second)) => found(first, second),
        Err(e) => refused(e),
    }
}

// 1 where it is so.
pub fn flag(answer: Result<bool, Error>) -> Got
    ensures { result ≡ flag_got answer }
{
    one_number(answer.map(usize::from))
}

// Of a writer and of a reader: their positions are two types.
pub fn written(answer: Result<ByteWriter, Error>) -> Got
    ensures { result ≡ written_got answer }
{
    one_number(answer.map(|writer| writer.at))
}

pub fn passed(answer: Result<ByteReader, Error>) -> Got
    ensures { result ≡ passed_got answer }
{
    one_number(answer.map(|reader| reader.at))
}
