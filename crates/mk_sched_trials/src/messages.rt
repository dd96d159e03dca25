//! Messages are copied whole.

use mk_base::{Json, List, Mem, Text};
use mk_plan::Message;
use std::alloc::Global;

fn request(alloc: Global) -> Result<Message, Mem> {
    let mut args = List::new(alloc);
    args.push(Json::Whole(1))?;
    Ok(Message::Ask {
        id: 9,
        name: Text::of(alloc, "get_data")?,
        args,
        named: Json::Null,
    })
}

// Whether a message has the id, the name and the argument of that request.
fn is_request(message: &Message) -> bool {
    match message {
        Message::Ask {
            id,
            name,
            args,
            named,
        } => {
            *id == 9
                && name.as_str() == "get_data"
                && matches!(args.as_slice(), [Json::Whole(1)])
                && named.is_null()
        }
        _ => false,
    }
}

fn is_copied(request: &Message, alloc: Global) -> bool {
    match request.copy(alloc) {
        Ok(copy) => is_request(&copy),
        Err(_) => false,
    }
}

fn is_made_and_copied(alloc: Global) -> bool {
    match request(alloc) {
        Ok(request) => is_copied(&request, alloc),
        Err(_) => false,
    }
}

#[test]
fn messages_are_copied(rt: HostRuntime) {
    assert!(rt; is_made_and_copied(rt.alloc()));
}
