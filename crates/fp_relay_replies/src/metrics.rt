//! The numbers of a relay as text.

ghost use Rattle.std.specs.Prelude.{◌≡◌, ◌++◌, IfOk, OnOk, decimal};
ghost use Rattle.fp_relay_replies.specs.Metrics.{and_connections, and_counter, and_gauge, and_head};
ghost use Rattle.fp_relay_replies.specs.Metrics.{and_refusals, and_replies, and_requests};
ghost use Rattle.fp_relay_replies.specs.Metrics.{and_shown, and_status, and_value, and_work};
ghost use Rattle.fp_relay_replies.specs.Metrics.{metrics_of};

use crate::status::{Answered, Report};
use itoa::Buffer;
use std::alloc::{AllocError, Global};

/// The numbers in Prometheus' text format, each with its meaning and its kind.
pub fn metrics_text(alloc: Global, report: &Report) -> Result<Vec<u8>, AllocError>
    ensures { IfOk result (λ text. text.items ≡ metrics_of report.now) }
{
    let mut text = Vec::new(alloc);
    add_shown(&mut text, report)?;
    add_connections(&mut text, report)?;
    add_requests(&mut text, &report.requests)?;
    add_work(&mut text, report)?;
    Ok(text)
}

fn add_shown(text: &mut Vec<u8>, report: &Report) -> Result<(), AllocError>
    ensures { OnOk result (text.new.items ≡ and_shown text.old.items report.now) }
{
    let help = "The revision of the set that is shown.";
    add_gauge(text, "flagrelay_revision", help, report.revision)?;
    let help = "The flags of that set.";
    add_gauge(text, "flagrelay_flags", help, report.flags)?;
    let help = "Seconds since a set was last taken, or since the start.";
    add_gauge(
        text,
        "flagrelay_seconds_since_frame",
        help,
        report.since_frame,
    )?;
    let help = "Seconds since a connection to the source stood, or since the start.";
    add_gauge(
        text,
        "flagrelay_seconds_since_source",
        help,
        report.since_source,
    )?;
    let help = "The revision that the source showed last.";
    add_gauge(
        text,
        "flagrelay_source_revision",
        help,
        report.source_revision,
    )
}

fn add_connections(text: &mut Vec<u8>, report: &Report) -> Result<(), AllocError>
    ensures { OnOk result (text.new.items ≡ and_connections text.old.items report.now) }
{
    let help = "Connections that are open.";
    add_gauge(text, "flagrelay_connections", help, report.connections)?;
    let help = "Connections that were let in.";
    add_counter(
        text,
        "flagrelay_connections_total",
        help,
        report.connections_total,
    )?;
    let help = "Connections for which there was no place or no descriptor.";
    add_counter(text, "flagrelay_refused_total", help, report.refused_total)
}

fn add_requests(text: &mut Vec<u8>, answered: &Answered) -> Result<(), AllocError>
    ensures { OnOk result (text.new.items ≡ and_requests text.old.items answered.now) }
{
    let help = "Requests that were answered, by status.";
    add_head(text, "flagrelay_requests_total", "counter", help)?;
    add_replies(text, answered)?;
    add_refusals(text, answered)
}

fn add_replies(text: &mut Vec<u8>, answered: &Answered) -> Result<(), AllocError>
    ensures { OnOk result (text.new.items ≡ and_replies text.old.items answered.now) }
{
    add_status(text, "200", answered.ok)?;
    add_status(text, "204", answered.no_content)?;
    add_status(text, "304", answered.not_modified)?;
    add_status(text, "400", answered.bad_request)?;
    add_status(text, "404", answered.not_found)?;
    add_status(text, "405", answered.not_allowed)
}

// What was refused before it was whole, or before there was a set.
fn add_refusals(text: &mut Vec<u8>, answered: &Answered) -> Result<(), AllocError>
    ensures { OnOk result (text.new.items ≡ and_refusals text.old.items answered.now) }
{
    add_status(text, "413", answered.too_long)?;
    add_status(text, "414", answered.target_too_long)?;
    add_status(text, "431", answered.head_too_long)?;
    add_status(text, "501", answered.not_implemented)?;
    add_status(text, "503", answered.unavailable)
}

fn add_work(text: &mut Vec<u8>, report: &Report) -> Result<(), AllocError>
    ensures { OnOk result (text.new.items ≡ and_work text.old.items report.now) }
{
    let help = "Requests that were evaluated.";
    add_counter(
        text,
        "flagrelay_evaluations_total",
        help,
        report.evaluations,
    )?;
    let help = "Sets that were taken from the source.";
    add_counter(text, "flagrelay_frames_total", help, report.frames)?;
    let help = "Bytes of their frames.";
    add_counter(
        text,
        "flagrelay_frame_bytes_total",
        help,
        report.frame_bytes,
    )
}

// A number that may fall, with its meaning.
fn add_gauge(text: &mut Vec<u8>, name: &str, help: &str, value: u64) -> Result<(), AllocError>
    ensures { OnOk result
        (text.new.items ≡ and_gauge text.old.items name.now help.now value) }
{
    add_head(text, name, "gauge", help)?;
    add(text, name)?;
    add_value(text, value)
}

// A number that only grows, with its meaning.
fn add_counter(text: &mut Vec<u8>, name: &str, help: &str, value: u64) -> Result<(), AllocError>
    ensures { OnOk result
        (text.new.items ≡ and_counter text.old.items name.now help.now value) }
{
    add_head(text, name, "counter", help)?;
    add(text, name)?;
    add_value(text, value)
}

// A number's meaning and its kind.
fn add_head(text: &mut Vec<u8>, name: &str, kind: &str, help: &str) -> Result<(), AllocError>
    ensures { OnOk result
        (text.new.items ≡ and_head text.old.items name.now kind.now help.now) }
{
    add(text, "# HELP ")?;
    add(text, name)?;
    add(text, " ")?;
    add(text, help)?;
    add(text, "\n# TYPE ")?;
    add(text, name)?;
    add(text, " ")?;
    add(text, kind)?;
    add(text, "\n")
}

// How many requests were answered with a status.
fn add_status(text: &mut Vec<u8>, status: &str, value: u64) -> Result<(), AllocError>
    ensures { OnOk result (text.new.items ≡ and_status text.old.items status.now value) }
{
    add(text, "flagrelay_requests_total{status=\"")?;
    add(text, status)?;
    add(text, "\"}")?;
    add_value(text, value)
}

fn add_value(text: &mut Vec<u8>, value: u64) -> Result<(), AllocError>
    ensures { OnOk result (text.new.items ≡ and_value text.old.items value) }
{
    add(text, " ")?;
    add(text, Buffer::new().format(value))?;
    add(text, "\n")
}

fn add(text: &mut Vec<u8>, more: &str) -> Result<(), AllocError>
    ensures { OnOk result (text.new.items ≡ text.old.items ++ more.now) }
{
    text.extend_from_slice(more.as_bytes())
}
