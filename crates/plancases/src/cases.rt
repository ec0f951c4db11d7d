// The row of cases.
ghost use Rattle.std.specs.Prelude.{◌<◌, length, IfSome};
ghost use Rattle.std.specs.Iterator.{at_most};

use std::str::from_utf8;

#[derive(Clone, Copy)]
pub enum Case<'a> {
    Plan { job: &'a [u8] },
    Check { job: &'a [u8], sheet: &'a [u8] },
    Echo { sheet: &'a [u8] },
}

// So many bytes, and what follows them and a line feed.
fn part(bytes: &[u8], len: usize) -> Option<(&[u8], &[u8])>
    ensures shorter { IfSome result (λ parts. length parts.1.now < length bytes.now) }
{
    let (front, rest) = bytes.split_at_checked(len)?;
    match rest {
        [b'\n', after @ ..] => Some((front, after)),
        _ => None,
    }
}

// The first case, and those that follow it.
fn next_case(bytes: &[u8]) -> Option<(Case<'_>, &[u8])>
    ensures shorter { IfSome result (λ parts. length parts.1.now < length bytes.now) }
{
    let len = bytes.iter().position(|&byte| byte == b'\n')?;
    let (line, rest) = part(bytes, len)?;
    let mut words = from_utf8(line).ok()?.split(' ');
    let name = words.next()?;
    let first = words.next()?.parse::<usize>().ok()?;
    match (name, words.next()) {
        ("plan", None) => {
            let (job, after) = part(rest, first)?;
            Some((Case::Plan { job }, after))
        }
        ("echo", None) => {
            let (sheet, after) = part(rest, first)?;
            Some((Case::Echo { sheet }, after))
        }
        ("check", Some(word)) => {
            let (job, after) = part(rest, first)?;
            let (sheet, after) = part(after, word.parse::<usize>().ok()?)?;
            Some((Case::Check { job, sheet }, after))
        }
        _ => None,
    }
}

// Input that is no row of cases.
#[derive(Clone, Copy)]
pub struct Broken;

// The cases of a row.
#[derive(Clone, Copy)]
pub struct Cases<'a>(pub &'a [u8]);

impl<'a> Iterator for Cases<'a> {
    type Item = Result<Case<'a>, Broken>;

    ghost remaining = { λ s. at_most (length s.0.now) };

    fn next(&mut self) -> Option<Result<Case<'a>, Broken>> {
        if self.0.is_empty() {
            return None;
        }
        let Some((case, after)) = next_case(self.0) else {
            self.0 = &[];
            return Some(Err(Broken));
        };
        self.0 = after;
        Some(Ok(case))
    }
}
