// The printer's lines, written to bytes.
ghost use Rattle.std.specs.Prelude.{◌≡◌, ◌+◌, ◌≤◌, ◌<◌, length};
ghost use Rattle.transcript.specs.Written.{Written};
ghost use Rattle.printing.specs.Text.{hex_digit, hex_line, decimal, count_line, bits_line, refused_line};

use refusal::{Refusal, number_of};

// The library's digit, `char::from_digit`, is an Option of a char, which would have to be taken apart for the byte.
fn hex_digit(n: u8) -> u8
    requires { n < 16 }
    ensures { result ≡ hex_digit n }
{
    if n < 10 { 48 + n } else { 87 + n }
}

// Bytes as they are.
fn put_bytes(out: &mut [u8], bytes: &[u8], at: usize) -> usize
    requires { at + length bytes.now ≤ length out.old }
    ensures { Written out.old at bytes.now result out.new }
{
    let end = at + bytes.len();
    out[at..end].copy_from_slice(bytes);
    end
}

// Bytes in hexadecimal, on a line.
pub fn put_hex_line(out: &mut [u8], bytes: &[u8], at: usize) -> usize
    requires { at + length (hex_line bytes.now) ≤ length out.old }
    ensures { Written out.old at (hex_line bytes.now) result out.new }
{
    let mut p = at;
    for b in bytes {
        out[p] = hex_digit(b / 16);
        out[p + 1] = hex_digit(b % 16);
        p += 2;
    }
    out[p] = b'\n';
    p + 1
}

// A number in decimal. The library prints without a heap to a writer, and says what is written only where that answers Ok, but not that it does; the kit's crate `itoa` would be one more to trust.
fn put_decimal(out: &mut [u8], at: usize, n: usize) -> usize
    requires { at + length (decimal n) ≤ length out.old }
    ensures { Written out.old at (decimal n) result out.new }
{
    if n < 10 {
        out[at] = 48 + n as u8;
        return at + 1;
    }
    let p = put_decimal(out, at, n / 10);
    out[p] = 48 + (n % 10) as u8;
    p + 1
}

// A word, a number and the end of the line.
fn put_count(out: &mut [u8], word: &[u8], at: usize, n: usize) -> usize
    requires { at + length (count_line word.now n) ≤ length out.old }
    ensures { Written out.old at (count_line word.now n) result out.new }
{
    let p = put_bytes(out, word, at);
    let p = put_decimal(out, p, n);
    put_bytes(out, b"\n", p)
}

pub fn put_bits(out: &mut [u8], at: usize, n: usize) -> usize
    requires { at + length (bits_line n) ≤ length out.old }
    ensures { Written out.old at (bits_line n) result out.new }
{
    put_count(out, b"bits ", at, n)
}

pub fn put_refused(out: &mut [u8], at: usize, why: Refusal) -> usize
    requires { at + length (refused_line why) ≤ length out.old }
    ensures { Written out.old at (refused_line why) result out.new }
{
    put_count(out, b"refused ", at, number_of(why) as usize)
}
