//! Cases of hellos and frames.

use fp_stream::{
    Decoder, Frame, FrameFault, Hello, HelloFault, MOST_BODY, WatchFault, read_hello, watch_loop,
    write_frame, write_hello,
};
use fp_streams::FailureCounted;
use fp_transcript::Text;
use std::alloc::Global;

/// A subscriber: what it has, and what it reads.
#[derive(Drop)]
pub struct Subscriber {
    hello: Hello,
    decoder: Decoder,
}

impl Subscriber {
    /// It has nothing.
    pub fn new(alloc: Global) -> Subscriber {
        Subscriber {
            hello: Hello::Nothing,
            decoder: Decoder::new(alloc, Hello::Nothing),
        }
    }

    /// Does what the word says.
    pub fn run(&mut self, word: &str, number: u64, operand: &[u8], out: &mut Text) {
        match word {
            "hello" => heard(operand, out),
            "subscriber" => self.start(operand, out),
            "frame" => framed(number, operand, out),
            "feed" => fed(&mut self.decoder, operand, out),
            "pieces" => put_outcome(self.hello, &[], operand, number as usize, out),
            "halves" => self.in_halves(operand, out),
            "watch" => watched(self.hello, operand, out),
            _ => waiting(number, operand, out),
        }
    }

    // Another subscriber, by what it has, and what it says.
    fn start(&mut self, operand: &[u8], out: &mut Text) {
        self.hello = match std::str::from_utf8(operand) {
            Ok(text) => text.parse().map_or(Hello::Nothing, Hello::Has),
            Err(_) => Hello::Nothing,
        };
        self.decoder = Decoder::new(out.alloc, self.hello);
        said(self.hello, out);
    }

    // What the bytes give in two pieces, a line for cuts in a row that give the same.
    fn in_halves(&self, bytes: &[u8], out: &mut Text) {
        let mut before = out.another();
        for cut in 0..=bytes.len() {
            let mut text = out.another();
            put_outcome(
                self.hello,
                &bytes[..cut],
                &bytes[cut..],
                bytes.len(),
                &mut text,
            );
            if text.text != before.text {
                out.named("from", cut as u64);
                out.push(":\n");
                out.push(text.as_str().trim_end());
                out.push("\n");
            }
            out.is_short = out.is_short || text.is_short;
            before = text;
        }
    }
}

// The hello in the bytes, and how many it leaves.
fn heard(bytes: &[u8], out: &mut Text) {
    let mut reader = FailureCounted::new(bytes);
    match read_hello(&mut reader) {
        Ok(Hello::Nothing) => out.push("nothing"),
        Ok(Hello::Has(revision)) => out.named("has", revision),
        Err(HelloFault::Cut) => out.push("cut"),
        Err(HelloFault::BadHello) => out.push("bad hello"),
        Err(HelloFault::Device) => out.is_short = true,
    }
    out.push(", ");
    out.number(reader.into_inner().len() as u64);
    out.push(" left");
}

// A writer into memory.
fn writer(alloc: Global) -> FailureCounted<Vec<u8>> {
    FailureCounted::new(Vec::new(alloc))
}

fn said(hello: Hello, out: &mut Text) {
    let mut writer = writer(out.alloc);
    if write_hello(&mut writer, hello).is_err() {
        out.is_short = true;
    }
    out.written(&writer.into_inner());
}

// The frame of a document.
fn framed(revision: u64, document: &[u8], out: &mut Text) {
    if document.len() > MOST_BODY {
        return out.push("too long");
    }
    let mut writer = writer(out.alloc);
    if write_frame(&mut writer, revision, document).is_err() {
        out.is_short = true;
    }
    out.written(&writer.into_inner());
}

// What a call answers.
fn fed(decoder: &mut Decoder, piece: &[u8], out: &mut Text) {
    match decoder.feed(out.alloc, piece) {
        Ok(frames) if frames.is_empty() => out.push("nothing"),
        Ok(frames) => put_frames(&frames, out),
        Err(fault) => put_fault(fault, out),
    }
}

fn put_frames(frames: &[Frame], out: &mut Text) {
    for frame in frames {
        put_length(frame, out);
        if !frame.body.is_empty() {
            out.written(&frame.body);
            out.push("\n");
        }
    }
}

fn put_fault(fault: FrameFault, out: &mut Text) {
    match fault {
        FrameFault::BadMagic => out.push("bad magic"),
        FrameFault::TooLong => out.push("too long"),
        FrameFault::NotRising => out.push("not rising"),
        FrameFault::Memory => out.is_short = true,
        FrameFault::Failed => out.push("failed"),
    }
}

// What all calls give, of a first piece, of others of this size and of one of no bytes: each
// frame, and then the fault.
fn put_outcome(hello: Hello, first: &[u8], others: &[u8], size: usize, out: &mut Text) {
    let mut decoder = Decoder::new(out.alloc, hello);
    put_answer(&mut decoder, first, out);
    for piece in others.chunks(size.max(1)) {
        put_answer(&mut decoder, piece, out);
    }
    put_answer(&mut decoder, &[], out);
}

fn put_answer(decoder: &mut Decoder, piece: &[u8], out: &mut Text) {
    match decoder.feed(out.alloc, piece) {
        Ok(frames) => {
            for frame in &frames {
                put_length(frame, out);
            }
        }
        Err(FrameFault::Failed) => {}
        Err(fault) => put_fault(fault, out),
    }
}

fn put_length(frame: &Frame, out: &mut Text) {
    out.named("revision", frame.revision);
    out.push(", ");
    out.number(frame.body.len() as u64);
    out.push(" bytes\n");
}

// What a subscriber is shown of the bytes, a long text by its length, and how that ended.
fn watched(hello: Hello, bytes: &[u8], out: &mut Text) {
    let mut reader = FailureCounted::new(bytes);
    let mut writer = writer(out.alloc);
    let ended = watch_loop(out.alloc, &mut reader, &mut writer, hello);
    put_shown(&writer.into_inner(), out);
    match ended {
        Ok(()) => out.push("\nthe end"),
        Err(WatchFault::BadFrame(fault)) => {
            out.push("\n");
            put_fault(fault, out);
            out.push(", told as ");
            out.shown(&WatchFault::BadFrame(fault));
        }
        Err(WatchFault::Device | WatchFault::Memory) => out.is_short = true,
    }
}

fn put_shown(shown: &[u8], out: &mut Text) {
    if shown.len() > 200 {
        out.number(shown.len() as u64);
        out.push(" bytes");
    } else {
        out.written(shown);
    }
}

// Whether so many decoders wait for more at once, each of which has taken the piece.
fn waiting(count: u64, piece: &[u8], out: &mut Text) {
    let mut decoders = Vec::new(out.alloc);
    for _ in 0..count {
        let mut decoder = Decoder::new(out.alloc, Hello::Nothing);
        match decoder.feed(out.alloc, piece) {
            Ok(_) => {
                let _ = out.got(decoders.push(decoder));
            }
            Err(fault) => return put_fault(fault, out),
        }
    }
    out.number(decoders.len() as u64);
    out.push(" wait");
}
