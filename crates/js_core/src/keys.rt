//! The keys of an answer, each wrapped under the KEK of its label.

ghost use Rattle.std.specs.Prelude.{◌≡◌, ◌<◌, length, None, Some};
ghost use Rattle.key_vault.specs.Keys.{app_session_key, network_keys};
ghost use Rattle.key_vault.specs.Table.{app_at, nwk_at};
ghost use Rattle.entitlement.specs.Keys.{entries_of};
ghost use Rattle.js_core.specs.Replies.{answer_keys, application_key, for_application};
ghost use Rattle.js_core.specs.Replies.{for_network, sealed_by, where_set};

use agreements::{DeviceRow, Tables};
use backend_json::{AnswerKeys, KekLabel, KeyEnvelope};
use entitlement::{KeySet, envelope, network_envelopes};
use key_vault::{BlockFn, Vault};
use wire_ids::{Seed, SessionKeys, Text};

// The network's three keys of an answer.
#[derive(Drop)]
struct NetworkKeys<'a> {
    f: Option<KeyEnvelope<'a>>,
    s: Option<KeyEnvelope<'a>>,
    e: Option<KeyEnvelope<'a>>,
}

fn no_keys() -> NetworkKeys<'static>
    ensures { result ≡ record { f = None; s = None; e = None } }
{
    NetworkKeys {
        f: None,
        s: None,
        e: None,
    }
}

// A wrapped key with its label.
fn labelled<'a>(label: &'a Text, aes_key: [u8; 24]) -> KeyEnvelope<'a>
    ensures { result ≡ record { kek_label = label.now; aes_key = aes_key } }
{
    KeyEnvelope {
        kek_label: KekLabel::new(label),
        aes_key,
    }
}

fn sealed_by<'a>(label: &'a Text, kek: &[u8; 16], key: &[u8; 16]) -> KeyEnvelope<'a>
    ensures { result ≡ sealed_by label.now kek.now key.now }
{
    labelled(label, envelope(kek, key))
}

// A key under this label, where the set has it.
fn sealed_where<'a>(
    set: bool,
    label: &'a Text,
    kek: &[u8; 16],
    key: &[u8; 16],
) -> Option<KeyEnvelope<'a>>
    ensures { result ≡ where_set set (Some (sealed_by label.now kek.now key.now)) }
{
    if !set {
        return None;
    }
    Some(sealed_by(label, kek, key))
}

// The network's three keys, which are wrapped together.
fn all_sealed<'a>(label: &'a Text, kek: &[u8; 16], keys: &SessionKeys) -> NetworkKeys<'a>
    ensures f { result.f ≡ Some (sealed_by label.now kek.now keys.now.f) }
    ensures s { result.s ≡ Some (sealed_by label.now kek.now keys.now.s) }
    ensures e { result.e ≡ Some (sealed_by label.now kek.now keys.now.e) }
{
    let [f, s, e] = network_envelopes(kek, &[keys.f, keys.s, keys.e]);
    NetworkKeys {
        f: Some(labelled(label, f)),
        s: Some(labelled(label, s)),
        e: Some(labelled(label, e)),
    }
}

// The set's keys for the device's home network. None is derived where the set has none of them.
#[tactic(auto, unfolding(crate::specs::Replies::for_network))]
fn for_network<'a, E: BlockFn, D: BlockFn>(
    tables: &'a Tables,
    vault: &Vault<E, D>,
    device: u32,
    row: &DeviceRow,
    seed: &Seed,
    set: KeySet,
) -> NetworkKeys<'a>
    requires { device < length vault.now }
    ensures f { result.f ≡ where_set set.f (for_network tables.now row.now.home
        (network_keys (nwk_at vault.now device) seed.now).f) }
    ensures s { result.s ≡ where_set set.s (for_network tables.now row.now.home
        (network_keys (nwk_at vault.now device) seed.now).s) }
    ensures e { result.e ≡ where_set set.e (for_network tables.now row.now.home
        (network_keys (nwk_at vault.now device) seed.now).e) }
{
    if !set.f && !set.s && !set.e {
        return no_keys();
    }
    let Some(network) = tables.network(row.home) else {
        return no_keys();
    };
    let keys = vault.session_keys(device, seed);
    if set.f && set.s && set.e {
        return all_sealed(&network.kek_label, &network.kek, &keys);
    }
    NetworkKeys {
        f: sealed_where(set.f, &network.kek_label, &network.kek, &keys.f),
        s: sealed_where(set.s, &network.kek_label, &network.kek, &keys.s),
        e: sealed_where(set.e, &network.kek_label, &network.kek, &keys.e),
    }
}

/// The set's key for the device's application. It is derived only where the set has it.
#[tactic(auto, unfolding(crate::specs::Replies::for_application))]
pub(crate) fn application_key<'a, E: BlockFn, D: BlockFn>(
    tables: &'a Tables,
    vault: &Vault<E, D>,
    device: u32,
    row: &DeviceRow,
    seed: &Seed,
    set: KeySet,
) -> Option<KeyEnvelope<'a>>
    requires { device < length vault.now }
    ensures { result
        ≡ application_key tables.now (app_at vault.now device) row.now seed.now (entries_of set) }
{
    if !set.app {
        return None;
    }
    match tables.application(row.app) {
        None => None,
        Some(application) => {
            let key = vault.app_s_key(device, seed);
            Some(sealed_by(&application.kek_label, &application.kek, &key))
        }
    }
}

/// The keys of this set, which belong to the session of this seed.
#[tactic(auto, using(crate::proofs::Sets::keys_of_set))]
pub(crate) fn answer_keys<'a, E: BlockFn, D: BlockFn>(
    tables: &'a Tables,
    vault: &Vault<E, D>,
    device: u32,
    row: &DeviceRow,
    seed: &Seed,
    set: KeySet,
) -> AnswerKeys<'a>
    requires { device < length vault.now }
    ensures { result
        ≡ answer_keys tables.now (nwk_at vault.now device) (app_at vault.now device) row.now
        seed.now (entries_of set) }
{
    let network = for_network(tables, vault, device, row, seed, set);
    AnswerKeys {
        f_nwk_s_int_key: network.f,
        s_nwk_s_int_key: network.s,
        nwk_s_enc_key: network.e,
        app_s_key: application_key(tables, vault, device, row, seed, set),
    }
}
