//! Which host a request over TCP may name: any page in a browser may ask a program of its machine, and then names a host of its
//! own. Needs no threads, files or network.
#![tactic(auto)]

ghost use Rattle.std.specs.Option.{option_copied};
ghost use Rattle.std.specs.Prelude.{◌≡◌, ◌≢◌, ◌↔◌, ◌++◌, ℕ, List, IfOk, IsTrue, MatchOption, bytes_eq, string_bytes};
ghost use Rattle.http_header.specs.HeaderMap.{get_all};
ghost use Rattle.http_header.specs.Token.{lowercase};
ghost use Rattle.base_hosts.specs.HostRules.{HasGoodHost, IsFourName, IsGoodHost, IsGoodName, IsSixName, is_among, is_same_name, single_of};

use http::HeaderMap;
use http::header::HeaderValue;
use http::uri::Authority;
use std::alloc::AllocError;
use std::net::{Ipv4Addr, Ipv6Addr};

/// Whether there is one `Host`, and it names this machine: `localhost`, an address, or one of these names, in whatever case, and
/// perhaps a port. `AllocError` where memory was refused.
pub fn has_good_host(hosts: &[String], headers: &HeaderMap) -> Result<bool, AllocError>
    ensures { IfOk result (λ good. IsTrue good ↔ HasGoodHost hosts.now headers.now) }
{
    match single(headers, "host") {
        Some(value) => is_good_host(hosts, value),
        None => Ok(false),
    }
}

/// The value under a name, in whatever case, if there is just one.
pub fn single<'a>(headers: &'a HeaderMap, name: &str) -> Option<&'a HeaderValue>
    ensures { option_copied result ≡ single_of (get_all headers.now (lowercase name.now)) }
{
    let mut values = headers.get_all(name).iter();
    let value = values.next()?;
    if values.next().is_some() {
        return None;
    }
    Some(value)
}

#[tactic(auto, unfolding(crate::specs::HostRules::IsGoodHost))]
fn is_good_host(hosts: &[String], value: &HeaderValue) -> Result<bool, AllocError>
    ensures { IfOk result (λ good. IsTrue good ↔ IsGoodHost hosts.now value.now.bytes) }
{
    match Authority::from_shared(value.as_shared().clone()?) {
        Ok(authority) => Ok(is_good_name(hosts, authority.host().as_bytes())),
        Err(_) => Ok(false),
    }
}

#[tactic(auto, unfolding(crate::specs::HostRules::IsGoodName))]
fn is_good_name(hosts: &[String], name: &[u8]) -> bool
    ensures { IsTrue result ↔ IsGoodName hosts.now name.now }
{
    if is_same_name(b"localhost", name) || is_four_name(name) || is_six_name(name) {
        return true;
    }
    is_among(hosts, name)
}

fn is_among(hosts: &[String], name: &[u8]) -> bool
    ensures { result ≡ is_among hosts.now name.now }
{
    hosts.iter().any(|host| is_of_host(host, name))
}

fn is_of_host(host: &String, name: &[u8]) -> bool
    ensures { result ≡ is_same_name (string_bytes host.now) name.now }
{
    is_same_name(host.as_bytes(), name)
}

// Whether the two are one name, in whatever case they are written.
fn is_same_name(a: &[u8], b: &[u8]) -> bool
    ensures { result ≡ is_same_name a.now b.now }
{
    a.eq_ignore_ascii_case(b)
}

#[tactic(auto, unfolding(crate::specs::HostRules::IsFourName))]
fn is_four_name(name: &[u8]) -> bool
    ensures { IsTrue result ↔ IsFourName name.now }
{
    match Ipv4Addr::parse_ascii(name) {
        Ok(_) => true,
        Err(_) => false,
    }
}

#[tactic(auto, unfolding(crate::specs::HostRules::IsSixName))]
fn is_six_name(name: &[u8]) -> bool
    ensures { IsTrue result ↔ IsSixName name.now }
{
    let Some(rest) = behind(name, b"[") else {
        return false;
    };
    let Some(text) = before(rest, b"]") else {
        return false;
    };
    match Ipv6Addr::parse_ascii(text) {
        Ok(_) => true,
        Err(_) => false,
    }
}

// What stands before the word that the text ends with.
fn before<'a>(text: &'a [u8], word: &[u8]) -> Option<&'a [u8]>
    ensures { MatchOption result ((rest : List ℕ) → text.now ≢ rest ++ word.now) (λ rest.
        text.now ≡ rest.now ++ word.now) }
{
    text.strip_suffix(word)
}

// What stands behind the word that the text begins with.
fn behind<'a>(text: &'a [u8], word: &[u8]) -> Option<&'a [u8]>
    ensures { MatchOption result ((rest : List ℕ) → text.now ≢ word.now ++ rest) (λ rest.
        text.now ≡ word.now ++ rest.now) }
{
    text.strip_prefix(word)
}
