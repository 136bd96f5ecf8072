// The run program of document 01: the file "segments" and 24-byte records from standard input give lines on standard output. L is
// 128. What a record does and what is written for it is proved in the crates below; here it is read and written, part by part.
#![tactic(auto)]

ghost use Rattle.std.specs.Prelude.{◌≡◌};
ghost use Rattle.gatekeeper.specs.Entries.{state};
ghost use Rattle.run.specs.Parts.{PartRuns};

use intake::Answers;
use rules::Process;
use std::io;

// What is lent, and the record after the input so far.
#[derive(Drop)]
struct Lent<'a> {
    file: &'a [u8],
    store: &'a mut [u32],
    process: Process,
}

impl<'a> Answers for Lent<'a> {
    ghost goes = { λ a part lines b. PartRuns a.file.now (state a.store.now a.process) part lines (state b.store.now b.process)
        × (b.file.now ≡ a.file.now) };

    fn answer(&mut self, input: &[u8], out: &mut [u8; 65536]) -> usize {
        let done = turns::answer(self.file, self.store, self.process, input, out);
        self.process = done.process;
        done.at
    }
}

// A part of the input is at most 512 records.
fn main(rt: HostRuntime) -> io::Result<()> {
    let mut room = [0u8; 7760];
    let n = intake::segment_file(&rt, &mut room);
    let mut store = [0u32; 8192];
    let mut lent = Lent {
        file: &room[..n],
        store: &mut store,
        process: turns::zero_record(),
    };
    let mut from = rt.stdin();
    let mut to = rt.stdout();
    intake::serve::<12288, _, _, _, _>(&rt, &mut from, &mut to, &mut lent)
}
