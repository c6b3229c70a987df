//! The members of the outermost object before its lists.
ghost use Rattle.std.specs.Prelude.{◌≡◌, ◌^◌, codes, true, IfOk, IfSome};
ghost use Rattle.catalog.specs.Names.{within};
ghost use Rattle.catalog.specs.declared.catalogue.Policy.TheVariants.{Lru};
ghost use Rattle.config_text.specs.Member.{or};
ghost use Rattle.config_text.specs.Reading.{Gives};
ghost use Rattle.config_text.specs.Settings.{policy, settings_of};
ghost use Rattle.serde_json.specs.Find.{get};
ghost use Rattle.serde_json.specs.View.{view};

use crate::member::{required_whole, text, whole_if_any, whole_or};
use crate::settings::Settings;
use catalog::{CatalogueFault, Field, Policy};
use serde_json::Value;

#[tactic(auto, unfolding(crate::specs::Settings::policy))]
fn policy(value: &Value, field: Field, at: u32) -> Result<Policy, CatalogueFault>
    ensures { Gives (λ p. p) result (policy field at (view value.now)) }
{
    let name = text(value, field, at)?;
    if name == b"lru".as_slice() {
        return Ok(Policy::Lru);
    }
    if name == b"lfu".as_slice() {
        return Ok(Policy::Lfu);
    }
    Err(CatalogueFault::Bad(field, at))
}

fn policy_or_lru(object: &Value) -> Result<Policy, CatalogueFault>
    ensures { Gives (λ p. p) result (or Lru policy Field.Policy 0 (get (codes "policy") (view object.now))) }
{
    match object.get("policy") {
        None => Ok(Policy::Lru),
        Some(value) => policy(value, Field::Policy, 0),
    }
}

/// The members of the outermost object before its lists.
#[tactic(auto, unfolding(crate::specs::Settings::settings_of))]
pub(crate) fn settings_of(object: &Value) -> Result<Settings, CatalogueFault>
    ensures gives { Gives (λ s. s) result (settings_of (view object.now)) }
    ensures kept { IfOk result (λ s. within 1 1048576 s.kept_limit ≡ true) }
    ensures cut { IfOk result (λ s. within 1 65536 s.cut_limit ≡ true) }
    ensures blob { IfOk result (λ s. within 1 (2 ^ 40) s.blob_bytes ≡ true) }
    ensures quota { IfOk result (λ s. IfSome s.quota (λ n. within 0 (2 ^ 50) n ≡ true)) }
{
    let source = whole_or(object, "source", Field::Source, 0, 0, 0xffff_ffff, 0)?;
    let kept_limit = whole_or(
        object,
        "keptLimit",
        Field::KeptLimit,
        0,
        1,
        1_048_576,
        1_048_576,
    )?;
    let cut_limit = whole_or(object, "cutLimit", Field::CutLimit, 0, 1, 65_536, 65_536)?;
    let blob_bytes = required_whole(object, "blobBytes", Field::BlobBytes, 0, 1, 1 << 40)?;
    let quota = whole_if_any(object, "quota", Field::Quota, 0, 1 << 50)?;
    let policy = policy_or_lru(object)?;
    Ok(Settings {
        source: source as u32,
        kept_limit: kept_limit as u32,
        cut_limit: cut_limit as u32,
        blob_bytes,
        quota,
        policy,
    })
}
