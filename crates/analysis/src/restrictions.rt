// The restrictions: version, dates and usage, and byte 2 of the TVR that they make.
#![tactic(auto, using(crate::proofs::Tests::choices), unfolding(crate::specs::Restrictions::card_version_present_and_differs, crate::specs::Restrictions::not_yet_effective, crate::specs::Restrictions::is_atm_type_with_cash_capability, crate::specs::Restrictions::issuer_country_match, crate::specs::Restrictions::cashback_requested, crate::specs::Restrictions::auc_allows_atm_or_non_atm, crate::specs::Restrictions::auc_allows_cash, crate::specs::Restrictions::auc_allows_goods_or_services, crate::specs::Restrictions::auc_allows_cashback, crate::specs::Restrictions::auc_violated))]

ghost use Rattle.std.specs.Prelude.{◌≡◌, option_copied};
ghost use Rattle.store.specs.Place.{stored_value_of};
ghost use Rattle.analysis.specs.Restrictions.{card_version_present_and_differs, not_yet_effective, is_atm_type_with_cash_capability, issuer_country_match, cashback_requested as asks_cashback, requirement_by_country, auc_allows_atm_or_non_atm, auc_allows_cash, auc_allows_goods_or_services, auc_allows_cashback, auc_violated, tvr_byte2_version_expired_early_usage};

use crate::{byte, digits};

// The terminal's country as the card sees it.
#[derive(Clone, Copy, PartialEq, Eq)]
pub enum IssuerCountryMatch {
    Home,
    Abroad,
    NotGiven,
}

// Byte 2: another version b8, expired b7, not yet effective b6, usage b5.
pub fn tvr_byte2(version: bool, expired: bool, early: bool, usage: bool) -> u8
    ensures { result ≡ tvr_byte2_version_expired_early_usage version expired early usage }
{
    byte::weight_if_set(version, 0x80)
        + byte::weight_if_set(expired, 0x40)
        + byte::weight_if_set(early, 0x20)
        + byte::weight_if_set(usage, 0x10)
}

// The card's application version is present and differs from the reader's.
pub fn version_differs(card: Option<&[u8]>, reader: &[u8]) -> bool
    ensures { result ≡ card_version_present_and_differs (stored_value_of (option_copied card.entry)) reader.now }
{
    card.is_some_and(|card| card != reader)
}

// The effective date is present and later than the transaction date. (That a card has expired is
// `digits::first_date_is_later` alone.)
pub fn not_yet_effective(effective: Option<&[u8]>, today: &[u8]) -> bool
    ensures { result ≡ not_yet_effective (stored_value_of (option_copied effective.entry)) today.now }
{
    effective.is_some_and(|effective| digits::first_date_is_later(effective, today))
}

// Usage: the application usage control is present and something needed is not met.
pub fn auc_violated(
    usage: Option<&[u8]>,
    atm: bool,
    country: IssuerCountryMatch,
    transaction: u8,
    cashback: bool,
) -> bool
    ensures { result ≡ auc_violated (stored_value_of (option_copied usage.entry)) atm country transaction cashback }
{
    usage.is_some_and(|usage| {
        !(auc_terminal_met(usage, atm)
            && auc_cash_met(usage, country, transaction)
            && auc_goods_met(usage, country, transaction)
            && auc_cashback_met(usage, country, cashback))
    })
}

// At an ATM: by the terminal's type and its capability of cash.
pub fn is_atm_type_with_cash_capability(kind: u8, capabilities: Option<&[u8]>) -> bool
    ensures { result ≡ is_atm_type_with_cash_capability kind (stored_value_of (option_copied capabilities.entry)) }
{
    capabilities.is_some_and(|capabilities| {
        matches!(kind, 0x14..=0x16) && byte::value_has_bit(capabilities, 1, 8)
    })
}

// The issuer's country against the terminal's.
pub fn issuer_country_match(issuer: Option<&[u8]>, terminal: &[u8]) -> IssuerCountryMatch
    ensures { result ≡ issuer_country_match (stored_value_of (option_copied issuer.entry)) terminal.now }
{
    match issuer {
        Some(issuer) if issuer == terminal => IssuerCountryMatch::Home,
        Some(_) => IssuerCountryMatch::Abroad,
        None => IssuerCountryMatch::NotGiven,
    }
}

// Cashback is requested: another amount is present and not zero.
pub fn cashback_requested(other: Option<&[u8]>) -> bool
    ensures { result ≡ asks_cashback (stored_value_of (option_copied other.entry)) }
{
    other.is_some_and(|other| 0 < digits::amount_of(other))
}

// The place of use is allowed: an ATM, or another terminal.
fn auc_terminal_met(usage: &[u8], atm: bool) -> bool
    ensures { result ≡ auc_allows_atm_or_non_atm usage.now atm }
{
    byte::value_has_bit(usage, 1, if atm { 2 } else { 1 })
}

// Cash is allowed where it is requested.
fn auc_cash_met(usage: &[u8], country: IssuerCountryMatch, transaction: u8) -> bool
    ensures { result ≡ auc_allows_cash usage.now country transaction }
{
    match transaction {
        0x01 | 0x17 => by_country(
            country,
            byte::value_has_bit(usage, 1, 8),
            byte::value_has_bit(usage, 1, 7),
        ),
        _ => true,
    }
}

// Goods or services are allowed where they are requested.
fn auc_goods_met(usage: &[u8], country: IssuerCountryMatch, transaction: u8) -> bool
    ensures { result ≡ auc_allows_goods_or_services usage.now country transaction }
{
    match transaction {
        0x00 | 0x09 => by_country(
            country,
            byte::value_has_bit(usage, 1, 6) || byte::value_has_bit(usage, 1, 4),
            byte::value_has_bit(usage, 1, 5) || byte::value_has_bit(usage, 1, 3),
        ),
        _ => true,
    }
}

// Cashback is allowed where it is requested.
fn auc_cashback_met(usage: &[u8], country: IssuerCountryMatch, cashback: bool) -> bool
    ensures { result ≡ auc_allows_cashback usage.now country cashback }
{
    !cashback
        || by_country(
            country,
            byte::value_has_bit(usage, 2, 8),
            byte::value_has_bit(usage, 2, 7),
        )
}

// What is needed at home or abroad.
fn by_country(country: IssuerCountryMatch, home: bool, abroad: bool) -> bool
    ensures { result ≡ requirement_by_country country home abroad }
{
    match country {
        IssuerCountryMatch::Home => home,
        IssuerCountryMatch::Abroad => abroad,
        IssuerCountryMatch::NotGiven => true,
    }
}
