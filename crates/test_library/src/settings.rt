//! Settings: what the worked text states, and the numbers that a text states or leaves out. Refused
//! texts, and other values, are shown by tests/check.py.
use gopher_item::Place;
use gopher_scope::Settings;
use std::alloc::Global;

const WORKED: &str =
    "host = \"localhost\"\nport = 7070\nroot = \"/srv/hole\"\n[[seeds]]\nhost = \"localhost\"\nport = 7070\n[[allow]]\nhost = \"LOCALHOST\"\nport = 7070\n[[deny]]\nhost = \"localhost\"\nport = 7070\nprefix = \"/private\"\n";

const STATED: &str =
    "host = 'h'\nroot = 'r'\nplaces = 65536\nworkers = 16\nthreads = 8\ntries = 5\nseeds = [{ host = 'a' }, { host = 'B', type = '0', port = 65535, selector = '/x' }]\n";

// The numbers of a server, each as the settings state it or the value for a missing key.
fn numbers(settings: &Settings) -> [u32; 5] {
    [
        u32::from(settings.home.port()),
        settings.places,
        settings.workers,
        settings.threads,
        settings.tries,
    ]
}

// What a text of settings is read as: host, root, numbers, and the number of seeds.
type Stated<'a> = (&'a [u8], &'a str, [u32; 5], usize);

fn states(settings: &Settings, wanted: Stated) -> bool {
    let (host, root, wanted_numbers, seeds) = wanted;
    settings.home.host() == host
        && settings.root.as_str() == root
        && numbers(settings) == wanted_numbers
        && settings.seeds.len() == seeds
}

// A place of the host `localhost`, whether it is a seed, and whether it is allowed.
const PLACES: &[(u8, &[u8], u16, bool, bool)] = &[
    (b'1', b"", 7070, true, true),
    (b'0', b"/a", 7070, false, true),
    (b'0', b"/private/x", 7070, false, false),
    (b'0', b"/a", 70, false, false),
];

// Whether the place is a seed, and allowed, as it should be.
fn treats(settings: &Settings, place: &Place, is_seed: bool, is_allowed: bool) -> bool {
    settings.seeds.iter().any(|seed| seed == place) == is_seed
        && settings.scope.allows(place) == is_allowed
}

fn treats_all(alloc: Global, settings: &Settings) -> bool {
    for (kind, selector, port, is_seed, is_allowed) in PLACES {
        let Ok(place) = Place::new(alloc, *kind, selector, b"localhost", *port) else {
            return false;
        };
        if !treats(settings, &place, *is_seed, *is_allowed) {
            return false;
        }
    }
    true
}

#[test]
fn reads_the_worked_settings(rt: HostRuntime) {
    let Ok(settings) = Settings::read(rt.alloc(), WORKED) else {
        panic!(rt; "the settings are refused");
    };
    let wanted = (
        b"localhost".as_slice(),
        "/srv/hole",
        [7070, 4096, 4, 2, 1],
        1usize,
    );
    assert!(rt; states(&settings, wanted));
    assert!(rt; treats_all(rt.alloc(), &settings));
}

#[test]
fn reads_what_is_stated(rt: HostRuntime) {
    let Ok(settings) = Settings::read(rt.alloc(), STATED) else {
        panic!(rt; "the settings are refused");
    };
    assert!(rt; states(&settings, (b"h", "r", [70, 65_536, 16, 8, 5], 2)));
}
