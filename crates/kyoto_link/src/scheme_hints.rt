//! The place of the fault in a scheme, for a hint.

use protocol::scheme::Scheme;
use protocol::units::NoMemory;
use serde_json::Value;
use std::alloc::Global;

/// Two codes; a registry has at most one of them.
const CODES: [&str; 2] = ["AA", "AB"];

/// The registries that the value of a scheme's file lists.
fn registries_in(value: &Value) -> Option<&Vec<Value>> {
    value.get("registries")?.as_array()
}

/// A code that the registry doesn't have.
fn other_code(registry: &Value) -> &'static str {
    match registry.get("code") {
        Some(code) if code.as_str() == Some(CODES[0]) => CODES[1],
        _ => CODES[0],
    }
}

/// The text of a scheme of this registry and one without content.
fn pair_text(alloc: Global, registry: &Value) -> Result<String, NoMemory> {
    let mut text = String::from_str(alloc, "{\"records\":1,\"registries\":[")?;
    let written = registry.to_string(alloc)?;
    text.push_str(written.as_str())?;
    text.push_str(",{\"accounts\":[],\"allotted\":[],\"code\":\"")?;
    text.push_str(other_code(registry))?;
    text.push_str("\",\"eligible\":true,\"kinds\":[]}]}")?;
    Ok(text)
}

/// Whether the registry has a fault by itself.
fn is_faulty(alloc: Global, registry: &Value) -> bool {
    match pair_text(alloc, registry) {
        Ok(text) => Scheme::read(alloc, text.as_bytes()).is_err(),
        Err(NoMemory) => false,
    }
}

/// Names the first registry that has a fault by itself, counted from 1, or the scheme if none has.
fn tell_registry(rt: &HostRuntime, place: &str, value: &Value) {
    let mut number: usize = 0;
    if let Some(registries) = registries_in(value) {
        for registry in registries.as_slice() {
            number = number.saturating_add(1);
            if is_faulty(rt.alloc(), registry) {
                let _ = eprintln!(rt;
                    "kyoto-link: the fault is in registry {number} of the scheme, {place}"
                );
                return;
            }
        }
    }
    let _ = eprintln!(rt;
        "kyoto-link: the fault is in the scheme, {place}, and in no single registry of it"
    );
}

/// Names the place in the text of a scheme at which it is no JSON, or otherwise the registry that has a fault. `place` is
/// its file, or the input that has it.
pub(crate) fn tell_scheme(rt: &HostRuntime, place: &str, text: &[u8]) {
    match Value::from_slice(rt.alloc(), text) {
        Ok(value) => tell_registry(rt, place, &value),
        Err(error) => {
            let (line, column) = (error.line(), error.column());
            let _ = eprintln!(rt; "kyoto-link: the scheme is no JSON at {place}:{line}:{column}");
        }
    }
}
