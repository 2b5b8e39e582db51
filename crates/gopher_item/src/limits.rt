//! Limits of selectors, hosts, ports and crawls.

/// The most bytes of a selector (RFC 1436, appendix: Selector).
pub const MAX_SELECTOR: usize = 255;

/// The most bytes of a host.
pub const MAX_HOST: usize = 255;

/// The largest port.
pub const MAX_PORT: u32 = 65_535;

/// The most places that a crawl knows.
pub const MAX_PLACES: u32 = 65_536;

/// The most times that a crawl claims a place.
pub const MAX_TRIES: u32 = 5;
