//! Web pages of other origins, and what their requests are told.

ghost use Rattle.std.specs.Prelude.{◌≡◌, OnOk, codes, map, option_map, string_bytes};
ghost use Rattle.std.specs.Option.{option_copied};
ghost use Rattle.http_server.specs.Response.{IsResponse, fields_of};
ghost use Rattle.http_header.specs.FieldValue.{is_visible_text};
ghost use Rattle.std.specs.Prelude.{IsTrue};
ghost use Rattle.fp_relay_replies.specs.CrossOrigin.{allowance_seen, allowed, and_allowing};
ghost use Rattle.fp_relay_replies.specs.CrossOrigin.{and_exposing, and_leave, and_one};
ghost use Rattle.fp_relay_replies.specs.CrossOrigin.{and_varying, are_told_apart, lists};

use http::header::{self, HeaderName, HeaderValue};
use http_server::Response;
use std::alloc::{AllocError, Global};
use std::marker::Model;

/// The word for every origin.
const EVERY: &str = "*";

/// The origins whose pages may ask.
#[derive(Drop)]
pub struct Origins {
    texts: Vec<String>,
}

impl Model for Origins {
    ghost use Rattle.std.specs.Prelude.{ℕ, List, map, string_bytes};

    ghost Value = { List (List ℕ) };

    ghost view = { λ o. map string_bytes o.texts.items };
}

/// What is allowed to the page that asks.
#[derive(Drop, Clone, Copy)]
pub enum Allowance<'o> {
    /// What is allowed to every page.
    Every,
    /// What is allowed to a page of this origin.
    Only(&'o [u8]),
}

impl Origins {
    /// The origins that an operator lists, each as a browser names it; `*` stands for every one.
    pub fn of(texts: Vec<String>) -> Origins
        // It is seen as these texts, in their order.
        ensures { result ≡ map string_bytes texts.items }
    {
        Origins { texts }
    }

    /// What is allowed to the page that asks, by the `origin` that its request names.
    pub fn allowance<'o>(&self, origin: Option<&'o [u8]>) -> Option<Allowance<'o>>
        // `Every` where a `*` is listed, whoever asks; else `Only` this origin exactly where it is
        // listed, byte for byte; else, and where no origin is named, `None`.
        ensures { option_map allowance_seen result
            ≡ allowed self.now (option_copied origin.entry) }
    {
        if self.lists(EVERY.as_bytes()) {
            return Some(Allowance::Every);
        }
        match origin {
            Some(origin) if self.lists(origin) => Some(Allowance::Only(origin)),
            _ => None,
        }
    }

    // Whether what is allowed depends on the origin of who asks: some are listed, and no `*`.
    fn are_told_apart(&self) -> bool
        ensures { result ≡ are_told_apart self.now }
    {
        !self.texts.is_empty() && !self.lists(EVERY.as_bytes())
    }

    // Whether a text is among these.
    fn lists(&self, text: &[u8]) -> bool
        ensures { result ≡ lists self.now text.now }
    {
        for listed in &self.texts {
            if listed.as_bytes() == text {
                return true;
            }
        }
        false
    }
}

/// Adds the fields that tell a page what is allowed to it, and the one that tells caches whether
/// another page may be told otherwise. It is there whoever asks, and also where nobody is named: a
/// cache goes by it before it hands a reply to a page.
pub fn tell_pages(
    alloc: Global,
    origins: &Origins,
    allowance: Option<Allowance<'_>>,
    response: &mut Response,
) -> Result<(), AllocError>
    ensures { OnOk result (IsResponse response.old.status (and_varying (and_allowing
        (fields_of response.old) (option_map allowance_seen allowance.entry))
        (are_told_apart origins.now)) response.old.body.items response.new) }
{
    add_allowance(alloc, allowance, response)?;
    if origins.are_told_apart() {
        return add(response, header::VARY, "origin");
    }
    Ok(())
}

// Adds the fields that tell a page what is allowed to it.
fn add_allowance(
    alloc: Global,
    allowance: Option<Allowance<'_>>,
    response: &mut Response,
) -> Result<(), AllocError>
    ensures { OnOk result (IsResponse response.old.status
        (and_allowing (fields_of response.old) (option_map allowance_seen allowance.entry))
        response.old.body.items response.new) }
{
    match allowance {
        None => Ok(()),
        Some(Allowance::Every) => {
            add(response, header::ACCESS_CONTROL_ALLOW_ORIGIN, EVERY)?;
            add_exposing(response)
        }
        Some(Allowance::Only(origin)) => {
            add_origin(alloc, origin, response)?;
            add_exposing(response)
        }
    }
}

// Adds the field that names the origin.
fn add_origin(alloc: Global, origin: &[u8], response: &mut Response) -> Result<(), AllocError>
    ensures { OnOk result (IsResponse response.old.status
        (and_one (fields_of response.old) (codes "access-control-allow-origin") origin.now)
        response.old.body.items response.new) }
{
    // It came as a field's value.
    match HeaderValue::from_bytes(alloc, origin) {
        Ok(value) => response.add_header(header::ACCESS_CONTROL_ALLOW_ORIGIN, value),
        Err(_) => Err(AllocError),
    }
}

// Adds the field that says what a page may read of a reply.
fn add_exposing(response: &mut Response) -> Result<(), AllocError>
    ensures { OnOk result (IsResponse response.old.status
        (and_exposing (fields_of response.old)) response.old.body.items response.new) }
{
    add(
        response,
        header::ACCESS_CONTROL_EXPOSE_HEADERS,
        "etag, flag-revision",
    )
}

/// Adds the fields that answer what a page may ask.
pub fn add_leave(response: &mut Response) -> Result<(), AllocError>
    ensures { OnOk result (IsResponse response.old.status
        (and_leave (fields_of response.old)) response.old.body.items response.new) }
{
    add(response, header::ACCESS_CONTROL_ALLOW_METHODS, "POST")?;
    let asked = "content-type, if-none-match, authorization, x-api-key";
    add(response, header::ACCESS_CONTROL_ALLOW_HEADERS, asked)?;
    add(response, header::ACCESS_CONTROL_MAX_AGE, "86400")
}

/// Adds a field.
pub fn add(response: &mut Response, name: HeaderName, value: &'static str) -> Result<(), AllocError>
    requires { IsTrue (is_visible_text value.now) }
    ensures { OnOk result (IsResponse response.old.status
        (and_one (fields_of response.old) name value.now)
        response.old.body.items response.new) }
{
    response.add_header(name, HeaderValue::from_static(value))
}
