// The program `trace`, for tests alone: it drives every public entry of the gatekeeper and shows the whole store and the whole record
// after each step. docs/TRACE.md has its input and output. What is decoded, set and digested is proved in `desk` and `probe`.
#![tactic(auto)]

ghost use Rattle.std.specs.Prelude.{◌+◌, ◌*◌, ◌/◌, ◌≤◌, length};

use desk::{Asked, Wrong};
use intake::Answers;
use probe::Told;
use rules::{Answer, Outcome, Process, Ring};
use std::io;

// The file and the store that are lent, the record, and how many words of the store and bytes of the file count: there is no heap, so
// their room is fixed and their length stands beside it.
#[derive(Drop)]
struct Bench {
    file: [u8; 7760],
    store: [u32; 65792],
    process: Process,
    words: u32,
    bytes: u32,
}

// After a step: the answer, and the digest of what a look handed back.
#[derive(Clone, Copy)]
struct Shown {
    answer: Answer,
    seen: u32,
}

// ---- The lent parts

// As long as asked, and no longer than there is room.
fn first<T>(n: u32, s: &[T]) -> usize
    ensures { result ≤ length s.now }
{
    s.len().min(n as usize)
}

// Kinds 4 to 8: number 0, and zeros as places.
fn plain() -> Shown {
    Shown {
        answer: Answer::places(0, 0, 0, 0),
        seen: 0,
    }
}

impl Bench {
    // ---- One step

    // Kinds 0, 1 and 2, and 17.
    fn run_turn(&mut self, a: Result<Asked, Wrong>) -> Shown {
        let f = first(self.bytes, &self.file);
        let n = first(self.words, &self.store);
        let p = self.process;
        let store = &mut self.store[..];
        let o = turns::turn(&self.file[..f], &mut store[..n], p, a);
        self.process = o.process;
        Shown {
            answer: o.answer,
            seen: 0,
        }
    }

    // Kind 3: the number from the separate question, and the digest of the part where it is 0.
    fn look_turn(&self, stack: Ring, at: u32) -> Shown {
        let s = &self.store[..first(self.words, &self.store)];
        let answer = gatekeeper::look_number(s, self.process, stack, at).answer;
        let seen = if answer.number == 0 {
            probe::digest_words(gatekeeper::look(s, self.process, stack, at))
        } else {
            0
        };
        Shown { answer, seen }
    }

    // Kind 4: the words that count become zeros.
    fn clear_words(&mut self, words: u32) {
        let n = first(words, &self.store);
        self.store[..n].fill(0);
        self.words = words;
    }

    // Kind 8: where the file grows, the bytes past its end become zeros.
    fn set_bytes(&mut self, bytes: u32) {
        let from = first(self.bytes, &self.file);
        let to = first(bytes, &self.file);
        if from < to {
            self.file[from..to].fill(0);
        }
        self.bytes = bytes;
    }

    // What is asked is done.
    fn step(&mut self, t: Told) -> Shown {
        match t {
            Told::Run(a) => return self.run_turn(a),
            Told::Look(stack, at) => return self.look_turn(stack, at),
            Told::Room(words) => self.clear_words(words),
            Told::Field(field, entry, argument, n1, n2) => {
                self.process = probe::set_field(field, entry, argument, n1, n2, self.process);
            }
            Told::Word(at, value) => lent::put(&mut self.store, at as usize, value),
            Told::Byte(at, value) => lent::put(&mut self.file, at as usize, (value % 256) as u8),
            Told::File(bytes) => self.set_bytes(bytes),
        }
        plain()
    }

    // ---- The line

    // The eleven numbers of the run program's line, and the three digests.
    fn numbers(&self, t: Told, x: Shown) -> [u32; 14] {
        let n = first(self.words, &self.store);
        let process = self.process;
        let answer = x.answer;
        let made = gatekeeper::stacks_made(process);
        let mut all = [0u32; 14];
        all[..11].copy_from_slice(&desk::numbers_of(
            probe::kind_shown(t),
            made,
            Outcome { process, answer },
        ));
        all[11] = probe::digest_words(&self.store[..n]);
        all[12] = probe::digest_record(process);
        all[13] = x.seen;
        all
    }

    // A step, and its line from a place on: where the line ends.
    #[tactic(auto, using(crate::proofs::Laws::line_short))]
    fn trace_one(&mut self, out: &mut [u8], at: usize, t: Told) -> usize
        requires { at ≤ 65536 }
        ensures { result ≤ at + 154 }
    {
        let x = self.step(t);
        let numbers = self.numbers(t, x);
        desk::put_line(out, at as u32, &numbers)
    }
}

// ---- A part of the input

impl Answers for Bench {
    // A line, of at most 154 bytes, for each whole record, and one for what is left.
    ghost goes = { λ _ part lines _. length lines ≤ 154 * (length part / 24 + 1) };

    // The records of a part of the input, of which no more than 400 are ever lent, and one line of 17 for what is left of one.
    fn answer(&mut self, input: &[u8], out: &mut [u8; 65536]) -> usize {
        let n = (input.len() / 24).min(400) as u32;
        let mut at = 0;
        for i in 0..n {
            let x = desk::read_record(input, i * 24);
            let t = probe::told_by(self.words, self.bytes, x);
            at = self.trace_one(out, at, t);
        }
        if input.len() % 24 == 0 {
            return at;
        }
        self.trace_one(out, at, Told::Run(Err(Wrong)))
    }
}

fn main(rt: HostRuntime) -> io::Result<()> {
    let mut bench = Bench {
        file: [0; 7760],
        store: [0; 65792],
        process: turns::zero_record(),
        words: 8192,
        bytes: 0,
    };
    bench.bytes = intake::segment_file(&rt, &mut bench.file) as u32;
    let mut from = rt.stdin();
    let mut to = rt.stdout();
    intake::serve::<9600, _, _, _, _>(&rt, &mut from, &mut to, &mut bench)
}
