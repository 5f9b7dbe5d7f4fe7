// The least and the greatest reading of a level, whose floats and ground marks stand in two files, part by part. Which of
// its refusals comes first is known when both files have ended: their lengths come before their places.
use crate::exact::Exact;
use crate::file::{PART, STANDARD, Source, count_on, open, take};
use crate::line::{Digits, HexDigits, Line};
use crate::reason::Reason;
use crate::status::{Status, Stop};
use crate::system::{Streams, System};
use crate::text::{Report, complain, first};
use checked::refusal::{Refusal, RefusedAt};
use level::scan::scan;
use level::types::Extent;
use std::fmt;
use std::io::Read;

// Readings to a part, which holds their bytes.
const READINGS: usize = 16384;

// What lies behind: bytes of floats, ground marks, and the scan of the readings that have one.
#[derive(Clone, Copy)]
struct Behind {
    bytes: u64,
    marks: u64,
    scan: Result<Extent, RefusedAt>,
}

// One of a level's files, and where what is wrong with it is told.
#[derive(Drop)]
struct Side<'a, R, F> {
    report: Report<'a, R>,
    input: F,
}

// A level's floats, and its ground marks unless all of it is in the air.
#[derive(Drop)]
struct Level<'a, R, F> {
    values: Side<'a, R, F>,
    ground: Option<Side<'a, R, F>>,
}

// The float with these bits. All NaNs are one: which it was is no matter for any answer. replay has the same function: one use
// in each, too little for a crate.
#[tactic(auto, using(std::proofs::lemmas::Float::not_nan_f32_bits))]
fn float_of(bits: u32) -> f32 {
    if 0x7f80_0000 < bits % 0x8000_0000 {
        return f32::NAN;
    }
    f32::from_bits(bits)
}

// The scan of as many readings as the lent list takes.
fn scan_part(bytes: &[u8], ground: &[u8], level: &mut [f32]) -> Result<Extent, RefusedAt> {
    let (readings, _) = bytes.as_chunks::<4>();
    for (reading, four) in level.iter_mut().zip(readings) {
        *reading = float_of(u32::from_le_bytes(*four));
    }
    scan(level, ground)
}

// The range of both. Of equal readings the earlier one stays: zeros with two signs are equal, and f32's `min` and `max` don't
// say which of them they give.
fn joined(all: Extent, part: Extent) -> Extent {
    let least = if part.least < all.least {
        part.least
    } else {
        all.least
    };
    let greatest = if all.greatest < part.greatest {
        part.greatest
    } else {
        all.greatest
    };
    Extent { least, greatest }
}

impl Behind {
    // The scan of what lies behind and of a part. The first fault stays; an empty part changes nothing.
    fn scan_with(&self, part: Result<Extent, RefusedAt>) -> Result<Extent, RefusedAt> {
        let all = self.scan?;
        match part {
            Ok(extent) => Ok(joined(all, extent)),
            Err(refused) => match refused.refusal {
                Refusal::FieldEmpty => Ok(all),
                refusal => Err(refusal.at(count_on(self.bytes / 4, refused.place))),
            },
        }
    }

    // What lies behind after a part's bytes and marks. Readings without a mark aren't looked at, nor marks without a reading:
    // then the lengths differ, and nothing else is told.
    fn look(&self, bytes: &[u8], marks: &[u8]) -> Behind {
        let ground = first(marks, bytes.len() / 4);
        let mut level = [0f32; READINGS];
        let mut scan = self.scan;
        // A part has no more marks.
        if let Some(level) = level.get_mut(..ground.len()) {
            scan = self.scan_with(scan_part(bytes, ground, level));
        }
        Behind {
            bytes: count_on(self.bytes, bytes.len() as u64),
            marks: count_on(self.marks, marks.len() as u64),
            scan,
        }
    }
}

// A line of a reading: its number, exactly, and its bits. No answer has a NaN, whose bits aren't known.
#[derive(Clone, Copy)]
struct Reading {
    called: &'static str,
    value: f32,
}

impl fmt::Display for Reading {
    fn fmt<W: fmt::Write>(&self, f: &mut fmt::Formatter<W>) -> fmt::Result {
        let value = self.value;
        if value.is_nan() {
            return Ok(());
        }
        let called = self.called;
        let bits = value.to_bits();
        let exact = Exact(bits);
        let bits = HexDigits(bits);
        write!(f, "{called}: {exact} (bits 0x{bits})\n")
    }
}

fn say_extent(rt: &impl Streams, extent: Extent) -> Result<Status, Stop> {
    let least = Reading {
        called: "least",
        value: extent.least,
    };
    let greatest = Reading {
        called: "greatest",
        value: extent.greatest,
    };
    let mut line = Line::<512>::new();
    line.show(format_args!("{least}{greatest}"));
    rt.write_all(line.as_bytes())?;
    Ok(Status::Well)
}

impl<R: Streams, F: Read> Side<'_, R, F> {
    // The file's next part.
    fn take<'b>(&mut self, part: &'b mut [u8]) -> Result<&'b [u8], Stop> {
        take(&self.report, &mut self.input, part)
    }
}

impl<R: Streams, F: Read> Level<'_, R, F> {
    // A mark's place is one of the file of marks. Where there is none, no mark is bad.
    fn complain_place(&self, refused: RefusedAt) -> Stop {
        let place = Digits(refused.place);
        let reason = Reason(refused.refusal);
        let what = format_args!(": place {place}: {reason}\n");
        match (refused.refusal, &self.ground) {
            (Refusal::BadMark, Some(ground)) => ground.report.complain(what),
            _ => self.values.report.complain(what),
        }
    }

    // The answer once both files have ended.
    fn conclude(&self, all: Behind) -> Result<Status, Stop> {
        let bytes = all.bytes;
        let marks = all.marks;
        let readings = bytes / 4;
        if bytes % 4 != 0 {
            let bytes = Digits(bytes);
            return Err(
                self.values.report.complain(format_args!(
                    ": {bytes} bytes are no whole number of readings, of 4 bytes each\n"
                )),
            );
        }
        if readings != marks {
            let reason = Reason(Refusal::LengthsDiffer);
            let readings = Digits(readings);
            let marks = Digits(marks);
            return Err(
                self.values.report.complain(format_args!(
                    ": {readings} readings, {marks} ground marks: {reason}\n"
                )),
            );
        }
        if readings == 0 {
            let reason = Reason(Refusal::FieldEmpty);
            return Err(self.values.report.complain(format_args!(": {reason}\n")));
        }
        match all.scan {
            Ok(extent) => say_extent(self.values.report.rt, extent),
            Err(refused) => Err(self.complain_place(refused)),
        }
    }

    // The ground marks of the next part. Where there is no file of them, as many zeros as readings are taken for them.
    fn take_marks<'b>(&mut self, marks: &'b mut [u8], readings: usize) -> Result<&'b [u8], Stop> {
        match &mut self.ground {
            Some(ground) => ground.take(marks),
            None => Ok(first(marks, readings)),
        }
    }

    // Nothing says that a file ends, but no file has so many parts.
    fn scan_parts(&mut self) -> Result<Status, Stop> {
        let mut part = [0u8; PART];
        let mut marks = [0u8; READINGS];
        let mut behind = Behind {
            bytes: 0,
            marks: 0,
            scan: Ok(Extent {
                least: f32::INFINITY,
                greatest: f32::NEG_INFINITY,
            }),
        };
        for _ in 0..u64::MAX {
            let bytes = self.values.take(&mut part)?;
            let ground = self.take_marks(&mut marks, bytes.len() / 4)?;
            behind = behind.look(bytes, ground);
            if bytes.len() < PART && ground.len() < READINGS {
                return self.conclude(behind);
            }
        }
        Ok(Status::Well)
    }
}

// The indices of their words on the command line.
const VALUES: usize = 2;

const GROUND: usize = 3;

// The file that a word of the command line names, opened.
fn opened<'a, R: System>(
    rt: &'a R,
    index: usize,
    name: &'a [u8],
) -> Result<Side<'a, R, Source<R::Reader, R::File>>, Stop> {
    let report = Report::new(rt, name);
    match open(rt, index, name) {
        Ok(input) => Ok(Side { report, input }),
        Err(error) => Err(report.fail(error)),
    }
}

// The files of these names.
pub(crate) fn level_command<'a, R: System>(
    rt: &'a R,
    values: &'a [u8],
    ground: Option<&'a [u8]>,
) -> Result<Status, Stop> {
    let mut level = Level {
        values: opened(rt, VALUES, values)?,
        ground: None,
    };
    if let Some(ground) = ground {
        if values == STANDARD && ground == STANDARD {
            return Err(complain(rt, "razo: '", values, "' can't be both VALUES and GROUND\n"));
        }
        level.ground = Some(opened(rt, GROUND, ground)?);
    }
    level.scan_parts()
}
