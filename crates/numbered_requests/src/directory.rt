//! Things by their names.
ghost use Rattle.std.specs.Prelude.{◌≡◌, ◌<◌, IfSome, length, vec_capacity, vec_len};
ghost use Rattle.std.specs.List.{position};
ghost use Rattle.numbered_requests.specs.Directory.{is_in_directory as is_among_of, is_named};
ghost use Rattle.numbered_requests.specs.Directory.{put_named as put_into};

use fx_types::Words;

/// A thing under its name.
#[derive(Drop)]
pub struct Named<T> {
    pub name: Words,
    pub it: T,
}

/// Where the thing of this name stands.
pub fn place_of<T>(list: &[Named<T>], name: &Words) -> Option<usize>
    ensures place { result ≡ position (is_named name.now) list.now }
    ensures within { IfSome result (λ k. k < length list.now) }
{
    list.iter().position(|named| named.name.is(name))
}

/// Whether there is a thing of this name.
pub fn is_among<T>(list: &[Named<T>], name: &Words) -> bool
    ensures { result ≡ is_among_of name.now list.now }
{
    place_of(list, name).is_some()
}

/// Puts a thing under its name, in the place of the one of that name if there is one. It takes no
/// memory.
pub fn put<T: Drop>(list: &mut Vec<Named<T>>, name: Words, it: T)
    requires room { vec_len list.old < vec_capacity list.old }
    ensures { list.new.items ≡ put_into name it list.old.items }
{
    match place_of(list, &name) {
        Some(place) => list[place] = Named { name, it },
        None => match list.push(Named { name, it }) {
            Ok(()) => {}
            Err(_) => {}
        },
    }
}
