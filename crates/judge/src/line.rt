// The line that is printed, written into a lent buffer. It is put together here, and not by `write!`: std promises what `write!`
// writes only where it answers Ok, and no promise says when it does.
ghost use Rattle.std.specs.Prelude.{◌≡◌, ◌≤◌, length};
ghost use Rattle.checker.specs.Answers.{answer_of};
ghost use Rattle.judge.specs.Printed.{decimal, field, line, line_of, Written};

use checker::Accepted;
use circuit::Refusal;

// The base in which numbers are written.
const BASE: usize = 10;

// Each of these writes at the start of the buffer, and gives how many bytes it wrote.
fn put_bytes(bytes: &[u8], out: &mut [u8]) -> usize
    requires { length bytes.now ≤ length out.old }
    ensures { Written bytes.now out.old result out.new }
{
    out[..bytes.len()].copy_from_slice(bytes);
    bytes.len()
}

// A number's digits, the most significant first: those in front of the last, and then the last.
fn put_number(n: usize, out: &mut [u8]) -> usize
    requires { length (decimal n) ≤ length out.old }
    ensures { Written (decimal n) out.old result out.new }
{
    if n < BASE {
        out[0] = b'0' + n as u8;
        return 1;
    }
    let next = put_number(n / BASE, out);
    out[next] = b'0' + (n % BASE) as u8;
    next + 1
}

// A name with a number behind it.
fn put_field(name: &[u8], n: usize, out: &mut [u8]) -> usize
    requires { length (field name.now n) ≤ length out.old }
    ensures { Written (field name.now n) out.old result out.new }
{
    let end = put_bytes(name, out);
    end + put_number(n, &mut out[end..])
}

// Three names with their numbers, and a line feed behind them.
fn put_line(a: &[u8], x: usize, b: &[u8], y: usize, c: &[u8], z: usize, out: &mut [u8]) -> usize
    requires { length (line a.now x b.now y c.now z) ≤ length out.old }
    ensures { Written (line a.now x b.now y c.now z) out.old result out.new }
{
    let second = put_field(a, x, out);
    let third = second + put_field(b, y, &mut out[second..]);
    let end = third + put_field(c, z, &mut out[third..]);
    end + put_bytes(b"\n", &mut out[end..])
}

// The line of an answer. The longest has 93 bytes.
pub(crate) fn write(answer: Result<Accepted, Refusal>, out: &mut [u8]) -> usize
    requires { 93 ≤ length out.old }
    ensures { Written (line_of (answer_of answer)) out.old result out.new }
{
    match answer {
        Ok(a) => put_line(
            b"accepted wires ",
            a.wires,
            b" random ",
            a.randoms,
            b" latency ",
            a.latency,
            out,
        ),
        Err(r) => put_line(
            b"refused ",
            r.number(),
            b" frame ",
            r.frame,
            b" word ",
            r.word,
            out,
        ),
    }
}
