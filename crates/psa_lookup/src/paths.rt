ghost use Rattle.std.specs.Prelude.{◌≡◌, ◌==◌, ◌<◌, ◌∷◌, [], length, position, IfSome, IfNone};
ghost use Rattle.psa_model.specs.PathNames.{dot, is_path, name_parts};

/// What joins the names of a path.
const DOT: u8 = b'.';

/// Where the first name of a path ends; none where there is but one name.
fn first_dot(name: &[u8]) -> Option<usize>
    ensures value { result ≡ position (λ byte. byte == dot) name.now }
    ensures within { IfSome result (λ at. at < length name.now) }
{
    name.iter().position(|byte| *byte == DOT)
}

/// Whether a name is a path of names.
pub fn joins_names(name: &[u8]) -> bool
    ensures { result ≡ is_path name.now }
{
    first_dot(name).is_some()
}

/// The first name of a path, and the names behind it; none where there is but one name.
pub fn split_first(name: &[u8]) -> Option<(&[u8], &[u8])>
    ensures more { IfSome result
        (λ split. name_parts name.now ≡ split.0.now ∷ name_parts split.1.now) }
    ensures shorter { IfSome result (λ split. length split.1.now < length name.now) }
    ensures one { IfNone result (name_parts name.now ≡ name.now ∷ []) }
{
    let Some(dot) = first_dot(name) else {
        return None;
    };
    Some((&name[..dot], &name[dot + 1..]))
}
