//! The words that a run is given.
ghost use Rattle.std.specs.Prelude.{◌≡◌, ◌≤◌, ◌∷◌, [], IfSome, IsSome, None, is_some, option_map};
ghost use Rattle.std.specs.Prelude.{string_bytes};
ghost use Rattle.fx_cli.specs.Words.{app_if, service_count, is_word, number_to, or_usual, port_of};
ghost use Rattle.fx_cli.specs.Words.{sample, sample_number, service, wanted};

/// The most conversations that are taken where the words give no count.
const USUAL_COUNT: u32 = 1_000_000;

/// The greatest count that words may give.
const MOST_COUNT: u64 = 1_000_000_000;

/// The last port.
const LAST_PORT: u64 = 65_535;

/// The greatest number of a sample load.
const MOST_SAMPLE: u64 = 1_000_000;

/// What a run can be asked for.
#[derive(Clone, Copy, Debug, PartialEq, Eq)]
pub enum Form {
    /// `view FILE`
    View,
    /// `check APP`
    Check,
    /// `replay APP`, or `serve APP DB PORT [COUNT]`
    Serve,
}

/// How an app is served.
#[derive(Clone, Copy, Debug)]
pub struct Service<'w> {
    /// The name of the store of its rows.
    pub store: &'w str,
    /// The port to listen on, if any.
    pub port: Option<u16>,
    /// The most conversations that are taken.
    pub most: u32,
}

/// The form of the words, and the file that they name.
pub fn form_of(words: &[String]) -> Option<(Form, &str)>
    ensures { option_map (λ w. (w.0, w.1.now)) result ≡ wanted words.now }
{
    match words {
        [command, file] => pair_form(command, file),
        [command, app, _, port] => app_if(is_word(command, "serve") && is_port(port), app),
        [command, app, _, port, count] => app_if(
            is_word(command, "serve") && is_port(port) && is_count(count),
            app,
        ),
        _ => None,
    }
}

/// The form of two words.
fn pair_form<'w>(command: &String, file: &'w String) -> Option<(Form, &'w str)>
    ensures { option_map (λ w. (w.0, w.1.now)) result ≡ wanted (command.now ∷ file.now ∷ []) }
{
    if is_word(command, "view") {
        return Some((Form::View, file.as_str()));
    }
    if is_word(command, "check") {
        return Some((Form::Check, file.as_str()));
    }
    app_if(is_word(command, "replay"), file)
}

/// An app's file, where it is to be served.
fn app_if<'w>(is_served: bool, app: &'w String) -> Option<(Form, &'w str)>
    ensures { option_map (λ w. (w.0, w.1.now)) result ≡ app_if is_served (string_bytes app.now) }
{
    if is_served {
        Some((Form::Serve, app.as_str()))
    } else {
        None
    }
}

fn is_word(word: &String, text: &str) -> bool
    ensures { result ≡ is_word text.now word.now }
{
    word.as_str() == text
}

/// The number of the sample load that the words ask for, if they do: `gen N`.
pub fn sample_of(words: &[String]) -> Option<u32>
    ensures number { result ≡ sample words.now }
    ensures few { IfSome result (λ n. n ≤ 1000000) }
    ensures alone { IsSome result → wanted words.now ≡ None }
{
    match words {
        [command, number] => pair_sample(command, number),
        _ => None,
    }
}

/// The number of the sample load that two words ask for.
fn pair_sample(command: &String, number: &String) -> Option<u32>
    ensures number { result ≡ sample (command.now ∷ number.now ∷ []) }
    ensures few { IfSome result (λ n. n ≤ 1000000) }
    ensures alone { IsSome result → wanted (command.now ∷ number.now ∷ []) ≡ None }
{
    if !is_word(command, "gen") {
        return None;
    }
    sample_number_in(number.as_str())
}

/// How an app is served that the words name.
pub fn service_of(words: &[String]) -> Service<'_>
    ensures { record { store = result.store.now; port = result.port; most = result.most }
        ≡ service words.now }
{
    match words {
        [_, _, store, port] => Service {
            store: store.as_str(),
            port: port_in(port.as_str()),
            most: USUAL_COUNT,
        },
        [_, _, store, port, count] => Service {
            store: store.as_str(),
            port: port_in(port.as_str()),
            most: count_or_usual(count.as_str()),
        },
        _ => Service {
            store: "",
            port: None,
            most: USUAL_COUNT,
        },
    }
}

/// The count that a text writes, or else the usual one.
fn count_or_usual(text: &str) -> u32
    ensures { result ≡ or_usual (service_count text.now) }
{
    match count_in(text) {
        Some(count) => count,
        None => USUAL_COUNT,
    }
}

fn is_port(word: &String) -> bool
    ensures { result ≡ is_some (port_of (string_bytes word.now)) }
{
    port_in(word.as_str()).is_some()
}

fn is_count(word: &String) -> bool
    ensures { result ≡ is_some (service_count (string_bytes word.now)) }
{
    count_in(word.as_str()).is_some()
}

/// The port that a text writes.
fn port_in(text: &str) -> Option<u16>
    ensures { result ≡ port_of text.now }
{
    let port = number_to(LAST_PORT, text)?;
    Some(port as u16)
}

/// The count that a text writes.
fn count_in(text: &str) -> Option<u32>
    ensures { result ≡ service_count text.now }
{
    let count = number_to(MOST_COUNT, text)?;
    Some(count as u32)
}

/// The number that plain digits write, where it is at least 1 and at most so much.
fn number_to(most: u64, text: &str) -> Option<u64>
    ensures number { result ≡ number_to most text.now }
    ensures most { IfSome result (λ n. n ≤ most) }
{
    // A number that is read may have a sign, and plain digits have none.
    if text.starts_with('+') {
        return None;
    }
    match text.parse::<u64>() {
        Ok(number) if 1 <= number && number <= most => Some(number),
        _ => None,
    }
}

/// The number that plain digits write, where it is at most 1,000,000.
fn sample_number_in(text: &str) -> Option<u32>
    ensures number { result ≡ sample_number text.now }
    ensures few { IfSome result (λ n. n ≤ 1000000) }
{
    // A number that is read may have a sign, and plain digits have none.
    if text.starts_with('+') {
        return None;
    }
    match text.parse::<u64>() {
        Ok(number) if number <= MOST_SAMPLE => Some(number as u32),
        _ => None,
    }
}
