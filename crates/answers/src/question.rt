// One question: it is read, the call is made, and its number and the buffer as the call left it are written.
use export::calls::{
    rate_plan_check, rate_plan_choose, rate_plan_list, rate_plan_read, rate_plan_write,
};

// The most bytes of a file and of a buffer.
const MOST: usize = 4096;

#[derive(Clone, Copy)]
enum Call {
    Read,
    Write,
    Check,
    Choose,
    List,
}

// A number that is no call's.
#[derive(Clone, Copy)]
struct NoCall;

impl TryFrom<u16> for Call {
    type Error = NoCall;

    fn try_from(number: u16) -> Result<Call, NoCall> {
        match number {
            1 => Ok(Call::Read),
            2 => Ok(Call::Write),
            3 => Ok(Call::Check),
            4 => Ok(Call::Choose),
            5 => Ok(Call::List),
            _ => Err(NoCall),
        }
    }
}

impl Call {
    fn make(self, first: &[u8], second: &[u8], buffer: &mut [u8]) -> u64 {
        match self {
            Call::Read => rate_plan_read(first),
            Call::Write => rate_plan_write(first, buffer),
            Call::Check => rate_plan_check(first),
            Call::Choose => rate_plan_choose(first, second),
            Call::List => rate_plan_list(first, buffer),
        }
    }
}

// What is asked, and how long the buffer and the two files are.
#[derive(Clone, Copy)]
struct Head {
    call: Call,
    room: u16,
    first: u16,
    second: u16,
}

// Fills a space from the input, and is none if the input ends before.
fn read(space: &mut [u8]) -> Option<()> {
    let length = space.len();
    (io::read_full(0, space) == length).then_some(())
}

fn write(bytes: &[u8]) -> Option<()> {
    io::write_all(1, bytes).then_some(())
}

// The head is four numbers of 16 bits.
fn read_head() -> Option<Head> {
    let mut bytes = [0; 8];
    read(&mut bytes)?;
    let [a, b, c, d, e, f, g, h] = bytes;
    Some(Head {
        call: Call::try_from(u16::from_le_bytes([a, b])).ok()?,
        room: u16::from_le_bytes([c, d]),
        first: u16::from_le_bytes([e, f]),
        second: u16::from_le_bytes([g, h]),
    })
}

// The beginning of a space, filled from the input: none if the space is shorter, or the input ends before.
fn read_file<'a>(length: u16, space: &'a mut [u8]) -> Option<&'a [u8]> {
    let file = space.get_mut(..usize::from(length))?;
    read(file)?;
    Some(file)
}

// Before the call every byte of the buffer is one of which no text and no file is made alone. Nothing is answered at the end of
// the input, nor if what is asked is no question.
pub fn answer_next() -> Option<()> {
    let head = read_head()?;
    let mut space = [165; MOST];
    let buffer = space.get_mut(..usize::from(head.room))?;
    let mut first = [0; MOST];
    let first = read_file(head.first, &mut first)?;
    let mut second = [0; MOST];
    let second = read_file(head.second, &mut second)?;
    let number = head.call.make(first, second, buffer);
    // The buffer is written even where the number could not be.
    write(&number.to_le_bytes()).and(write(buffer))
}
