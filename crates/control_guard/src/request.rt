//! A request, and the rules that it is judged by.

/// How something is asked.
#[derive(Clone, Copy)]
pub enum Method {
    Get,
    Post,
    /// Any other one.
    Other,
}

/// A request, as far as it is judged: its method, its path and query, and the fields that say who sends it.
#[derive(Clone, Copy)]
pub struct Request<'a> {
    pub method: Method,
    /// The path, as `/end`.
    pub path: &'a [u8],
    /// What stands behind the path's question mark, where there is one.
    pub query: Option<&'a [u8]>,
    /// `Host`.
    pub host: Option<&'a [u8]>,
    /// `Origin`, which a browser sends with each POST.
    pub origin: Option<&'a [u8]>,
    /// The token that `Authorization` gives.
    pub token: Option<&'a [u8]>,
}

/// What the endpoint calls its own.
#[derive(Drop)]
pub struct Rules {
    /// Its names, each a host, a colon and a TCP port, as a browser writes them: `127.0.0.1:9100`.
    pub hosts: Vec<Vec<u8>>,
    /// The token that each request has to give, where there is one.
    pub token: Option<Vec<u8>>,
    /// How many clients there are: each can be disconnected by its number, from 1.
    pub clients: u16,
}
