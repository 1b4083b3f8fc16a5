// The stored text: its numbers, and the lists that it has in runs.
ghost use Rattle.std.specs.Prelude.{◌≤◌, ◌<◌, IfOk, IfSome, length, vec_len};

use std::alloc::{AllocError, Global};

// A number of a list: of a stored one, which has 32 bits, it has the low ones.
pub trait Entry: Copy + Into<u32> {
    fn low(stored: u32) -> Self;
}

impl Entry for u8 {
    fn low(stored: u32) -> u8 {
        (stored % 256) as u8
    }
}

impl Entry for u16 {
    fn low(stored: u32) -> u16 {
        (stored % 65536) as u16
    }
}

impl Entry for u32 {
    fn low(stored: u32) -> u32 {
        stored
    }
}

// What is still to be read of a text.
#[derive(Clone, Copy)]
pub struct Text<'a> {
    rest: &'a [u8],
}

impl<'a> Text<'a> {
    pub fn new(bytes: &'a [u8]) -> Text<'a> {
        Text { rest: bytes }
    }

    // A text that says how long it is, and is so long; with no text nothing is said.
    pub fn whole(bytes: &'a [u8]) -> Option<Text<'a>> {
        let mut text = Text::new(bytes);
        let length = text.next_number();
        if bytes.is_empty() || bytes.len() != length as usize {
            return None;
        }
        Some(text)
    }

    pub fn is_at_end(&self) -> bool {
        self.rest.is_empty()
    }

    // The next number. What stands before it and is no digit is passed over; behind the last number there are zeros. One that 32 bits do not hold is taken
    // modulo 2^32.
    pub fn next_number(&mut self) -> u32 {
        let front = self.rest.iter().take_while(|byte| !byte.is_ascii_digit());
        let mut rest = self.rest.split_at(front.count()).1;
        let mut number: u32 = 0;
        // It goes on as long as digits come, and is no count.
        while let Some((digit, behind)) = split_digit(rest) {
            number = number.wrapping_mul(10).wrapping_add(digit);
            rest = behind;
        }
        self.rest = rest;
        number
    }

    // The next run of a list that has so many numbers to come: how many it has, one at least, and their value. It ends with the list at the latest.
    fn next_run(&mut self, left: usize) -> (usize, u32)
        requires { 0 < left }
        ensures { (0 < result.0) × (result.0 ≤ left) }
    {
        let first = self.next_number();
        if self.rest.first() == Some(&b'x') {
            ((first as usize).clamp(1, left), self.next_number())
        } else {
            (1, first)
        }
    }

    // The next list: as many numbers as it says, or as there is room for.
    pub fn next_list<T: Entry>(&mut self, alloc: Global, room: usize) -> Result<Vec<T>, AllocError>
        ensures { IfOk result (λ list. vec_len list ≤ room) }
    {
        let count = room.min(self.next_number() as usize);
        let mut list = Vec::with_capacity(alloc, count)?;
        while list.len() < count {
            let (times, value) = self.next_run(count - list.len());
            list.resize(list.len() + times, T::low(value))?;
        }
        Ok(list)
    }

    // The same, of 32-bit numbers, laid at the front of a list that is lent.
    pub fn lay_list(&mut self, list: &mut [u32]) {
        let count = list.len().min(self.next_number() as usize);
        let mut at = 0;
        while at < count {
            let (times, value) = self.next_run(count - at);
            list[at..at + times].fill(value);
            at += times;
        }
    }
}

// The digit that stands first, by its value, and what stands behind it.
fn split_digit(bytes: &[u8]) -> Option<(u32, &[u8])>
    ensures { IfSome result (λ digit. (digit.0 < 10) × (length digit.1.now < length bytes.now)) }
{
    let (&byte, behind) = bytes.split_first()?;
    if !byte.is_ascii_digit() {
        return None;
    }
    Some((u32::from(byte - b'0'), behind))
}

#[cfg(test)]
mod tests {
    use super::*;

    #[test]
    fn lists_are_laid_in_runs(rt: HostRuntime) -> Result<(), AllocError> {
        let mut text = Text::new(b"list 5 2x7 0x8 300 9x1 cuts 1 6");
        let list = text.next_list::<u8>(rt.alloc(), 8)?;
        assert_eq!(rt; list.as_slice(), [7, 7, 8, 44, 1].as_slice());
        let mut array = [0; 3];
        text.lay_list(&mut array);
        assert_eq!(rt; array, [6, 0, 0]);
        assert!(rt; text.is_at_end());
        Ok(())
    }
}
