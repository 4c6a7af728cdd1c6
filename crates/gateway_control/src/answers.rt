//! What is answered to a request.

use crate::control::DayControl;
use crate::served::Served;
use bytes::Bytes;
use control_guard::{
    Act, Method, Refusal, Request as Asking, Rules, Verdict, View, judged, token_in,
};
use gateway_watch::Shown;
use http::{HeaderMap, HeaderName, HeaderValue, Request, StatusCode, header};
use http_server::{Response, Service};
use status_metrics::metrics_of;
use status_page::{DayNames, json_of, page_of};
use std::alloc::{AllocError, Global};
use std::sync::Wait;
use std::time::Clock;

/// What a browser lets the page do: nothing but show itself, on its own.
const POLICY: &str = "default-src 'none'; style-src 'unsafe-inline'; frame-ancestors 'none'";

/// The answers of the endpoint to one connection.
#[derive(Drop)]
pub(crate) struct Answers<'a, R> {
    rt: &'a R,
    alloc: Global,
    served: &'a Served,
    control: &'a DayControl,
}

impl<'a, R: Wait + Clock> Answers<'a, R> {
    /// By these rules, of this day. Takes no memory.
    pub(crate) fn new(
        rt: &'a R,
        alloc: Global,
        served: &'a Served,
        control: &'a DayControl,
    ) -> Answers<'a, R> {
        Answers {
            rt,
            alloc,
            served,
            control,
        }
    }

    /// Does what may be done, and says so.
    fn does(&self, act: Act, response: &mut Response) -> Result<(), AllocError> {
        response.body.push(Bytes::from_static(said_of(act)))?;
        match act {
            Act::End => self.control.end(),
            Act::EndNow => self.control.end_now(),
            Act::Disconnect(client) => self.control.disconnect(client),
        }
        Ok(())
    }

    /// Shows what may be shown.
    fn shows(&self, view: View, response: &mut Response) -> Result<(), AllocError> {
        response.add_header(header::CONTENT_TYPE, kind_of(view))?;
        let body = Bytes::from_vec(self.text_of(view)?)?;
        response.body.push(body)
    }

    /// What is on the board, drawn. Who writes the board meanwhile leaves it as it is; nothing is sent before it is let
    /// go.
    fn text_of(&self, view: View) -> Result<Vec<u8>, AllocError> {
        let now = now(self.rt);
        let guard = self.control.board().look(self.rt);
        drawn(self.alloc, view, &self.served.names, &*guard, now)
    }
}

/// What is shown, drawn.
fn drawn(
    alloc: Global,
    view: View,
    names: &DayNames,
    shown: &Option<Shown>,
    now: u64,
) -> Result<Vec<u8>, AllocError> {
    match view {
        View::Page => Ok(page_of(alloc, names, shown, now)?.into_bytes()),
        View::Json => Ok(json_of(alloc, names, shown, now)?.into_bytes()),
        View::Metrics => metrics_of(alloc, names, shown, now),
    }
}

/// Now, in milliseconds since 1970; 0 where the system can't say.
fn now<R: Clock>(rt: &R) -> u64 {
    match rt.since_1970() {
        Ok(since) => u64::try_from(since.as_millis()).unwrap_or(0),
        Err(_) => 0,
    }
}

/// What is answered to what is done.
fn said_of(act: Act) -> &'static [u8] {
    match act {
        Act::End | Act::EndNow => b"ending\n",
        Act::Disconnect(_) => b"disconnecting\n",
    }
}

/// The media type of what is shown.
fn kind_of(view: View) -> HeaderValue {
    match view {
        View::Page => HeaderValue::from_static("text/html; charset=utf-8"),
        View::Json => HeaderValue::from_static("application/json"),
        View::Metrics => HeaderValue::from_static("text/plain; version=0.0.4; charset=utf-8"),
    }
}

impl<'a, R: Wait + Clock> Service for Answers<'a, R> {
    ghost answers = { λ _ _ _ _. Unit {0} };

    fn call(
        &mut self,
        request: &Request<Bytes>,
        response: &mut Response,
    ) -> Result<(), AllocError> {
        add_headers(response)?;
        match verdict_on(self.alloc, request, &self.served.rules)? {
            Verdict::Does(act) => self.does(act, response),
            Verdict::Shows(view) => self.shows(view, response),
            Verdict::Refused(refusal) => refuses(refusal, response),
        }
    }
}

/// Adds the fields that each answer has.
fn add_headers(response: &mut Response) -> Result<(), AllocError> {
    response.add_header(header::CONNECTION, HeaderValue::from_static("close"))?;
    response.add_header(header::CACHE_CONTROL, HeaderValue::from_static("no-store"))?;
    let sniffing = HeaderValue::from_static("nosniff");
    response.add_header(header::X_CONTENT_TYPE_OPTIONS, sniffing)?;
    response.add_header(
        header::CONTENT_SECURITY_POLICY,
        HeaderValue::from_static(POLICY),
    )
}

/// What becomes of a request.
fn verdict_on(
    alloc: Global,
    request: &Request<Bytes>,
    rules: &Rules,
) -> Result<Verdict, AllocError> {
    let headers = request.headers();
    let token = match value_of(headers, header::AUTHORIZATION) {
        Some(value) => token_in(alloc, value)?,
        None => None,
    };
    let asking = Asking {
        method: method_of(request.method().as_str()),
        path: request.uri().path().as_bytes(),
        query: match request.uri().query() {
            Some(text) => Some(text.as_bytes()),
            None => None,
        },
        host: value_of(headers, header::HOST),
        origin: value_of(headers, header::ORIGIN),
        token: match &token {
            Some(token) => Some(token.as_slice()),
            None => None,
        },
    };
    Ok(judged(&asking, rules))
}

/// The value of a field, where it has one.
fn value_of<'r>(headers: &'r HeaderMap, name: HeaderName) -> Option<&'r [u8]> {
    match headers.get(name) {
        Some(value) => Some(value.as_bytes()),
        None => None,
    }
}

/// A method by its name.
fn method_of(name: &str) -> Method {
    match name {
        "GET" => Method::Get,
        "POST" => Method::Post,
        _ => Method::Other,
    }
}

/// Refuses a request with the status of its reason.
fn refuses(refusal: Refusal, response: &mut Response) -> Result<(), AllocError> {
    response.status = match refusal {
        Refusal::ForeignHost | Refusal::ForeignOrigin => StatusCode::FORBIDDEN,
        Refusal::NoToken => StatusCode::UNAUTHORIZED,
        Refusal::NoSuchPath => StatusCode::NOT_FOUND,
        Refusal::WrongMethod => StatusCode::METHOD_NOT_ALLOWED,
    };
    if refusal == Refusal::NoToken {
        let scheme = HeaderValue::from_static("Basic realm=\"gateway\"");
        response.add_header(header::WWW_AUTHENTICATE, scheme)?;
    }
    Ok(())
}
