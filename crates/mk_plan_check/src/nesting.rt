//! How deep a JSON text nests.
ghost use Rattle.std.specs.Prelude.{◌≡◌, ◌+◌, ◌<◌, ◌^◌};
ghost use Rattle.mk_plan_check.specs.Nesting.{place_after, scanned, nesting_of};

// What the next byte of a JSON text stands in: nothing, a quoted text, or an escape in one.
#[derive(Clone, Copy)]
enum Place {
    Outside,
    Quoted,
    Escaped,
}

// How far the bytes of a JSON text were read: the place, the brackets that are open, and the most that were.
#[derive(Clone, Copy)]
struct Scan {
    place: Place,
    depth: usize,
    most: usize,
}

fn place_after(place: Place, byte: u8) -> Place
    ensures { result ≡ place_after place byte }
{
    match place {
        Place::Outside => {
            if byte == b'"' {
                Place::Quoted
            } else {
                Place::Outside
            }
        }
        Place::Quoted => {
            if byte == b'"' {
                Place::Outside
            } else if byte == b'\\' {
                Place::Escaped
            } else {
                Place::Quoted
            }
        }
        Place::Escaped => Place::Quoted,
    }
}

fn scanned(scan: Scan, byte: u8) -> Scan
    requires { scan.depth + 1 < 2 ^ 64 }
    ensures { result ≡ scanned scan byte }
{
    let depth = match scan.place {
        Place::Outside => match byte {
            b'[' | b'{' => scan.depth + 1,
            b']' | b'}' => scan.depth.saturating_sub(1),
            _ => scan.depth,
        },
        Place::Quoted | Place::Escaped => scan.depth,
    };
    Scan {
        place: place_after(scan.place, byte),
        depth,
        most: scan.most.max(depth),
    }
}

/// How many brackets of a JSON text are open at once at most, those within quotes aside.
pub fn text_nesting(text: &[u8]) -> usize
    ensures { result ≡ nesting_of text.now }
{
    let mut scan = Scan {
        place: Place::Outside,
        depth: 0,
        most: 0,
    };
    for byte in text {
        scan = scanned(scan, *byte);
    }
    scan.most
}
