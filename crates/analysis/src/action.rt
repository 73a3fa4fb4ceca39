// Action analysis over the bytes of a session's store: the TVR, cardholder verification, the action codes, the choice,
// the transaction limit.
#![tactic(auto, using(crate::proofs::Tests::choices, crate::proofs::Rows::rows), unfolding(crate::specs::Action::card_and_kernel_support_on_device_cvm, crate::specs::Action::transaction_limit, crate::specs::Action::stored_amount_above_limit, crate::specs::Action::auc_violated_in_store, crate::specs::Action::restrictions_tvr_byte2, crate::specs::Action::tvr_before_cvm, crate::specs::Action::currencies_present_and_equal, crate::specs::Action::cvm_conditions_in, crate::specs::Action::cvm_result_in, crate::specs::Action::tvr_with_cvm, crate::specs::Action::findings_of, crate::specs::Action::action_codes_of, crate::specs::Action::choice_for_tvr))]

ghost use Rattle.std.specs.Prelude.{◌≡◌, get_or};
ghost use Rattle.dictionary.specs.Rows.{dictionary_rows};
ghost use Rattle.store.specs.Place.{bytes_or_empty_if_absent, row_value, object_value};
ghost use Rattle.store.specs.Held.{stored_bytes};
ghost use Rattle.analysis.specs.Choice.{action_codes_at, generate_ac_p1, generate_ac_p1_for};
ghost use Rattle.analysis.specs.Digits.{is_one_of, first_amount_is_above};
ghost use Rattle.analysis.specs.Restrictions.{card_version_present_and_differs, not_yet_effective, is_atm_type_with_cash_capability, issuer_country_match, cashback_requested};
ghost use Rattle.analysis.specs.Action.{card_and_kernel_support_on_device_cvm, transaction_limit, stored_amount_above_limit, auc_violated_in_store, restrictions_tvr_byte2, tvr_before_cvm, terminal_type, action_codes_of, choice_for_tvr};
ghost use Rattle.analysis.specs.Cvm.{on_device_cvm_result_by_above_limit};
ghost use Rattle.analysis.specs.Action.{currencies_present_and_equal, cvm_conditions_in, cvm_result_in, tvr_with_cvm, findings_of, OnDeviceCvmIgnoresCvmList};

use crate::choice::{ActionCodes, Choice, DEFAULT, DENIAL, ONLINE};
use crate::cvm::{Cvm, CvmConditions, CvmResult};
use crate::restrictions::IssuerCountryMatch;
use crate::{byte, choice, cvm, digits, restrictions, tvr};

// What the analysis finds before the choice: the three bytes of 9F34, the five of 95, and the CVM.
#[derive(Clone, Copy)]
pub struct AnalysisFindings {
    pub results: [u8; 3],
    pub bits: [u8; 5],
    pub cvm: Cvm,
}

// The five bytes of 95 that the store's values give, without the verification's bits.
pub fn tvr_before_cvm(bytes: &[u8]) -> [u8; 5]
    ensures { result ≡ tvr_before_cvm bytes.now }
{
    let amount = store::value(bytes, dictionary::ROW_AMOUNT);
    let floor = store::value(bytes, dictionary::ROW_FLOOR_LIMIT);
    tvr::tvr_from_bytes2_and4(restrictions_byte(bytes), tvr::tvr_byte4(amount, floor))
}

// What the restrictions, the limit and cardholder verification give: 9F34, 95 and the CVM.
#[tactic(auto, using(crate::proofs::CvmStore::on_device_rules), unfolding(crate::specs::Action::findings_of))]
pub fn findings_of(bytes: &[u8]) -> AnalysisFindings
    ensures findings { result ≡ findings_of bytes.now }
    ensures phones { OnDeviceCvmIgnoresCvmList }
{
    let verified = cvm_result_in(bytes);
    let bits = tvr_with_cvm(bytes, verified.tvr1, verified.tvr3);
    AnalysisFindings {
        results: [verified.code, verified.condition, verified.result],
        bits,
        cvm: verified.cvm,
    }
}

// What cardholder verification gives: the CVM, the bytes of 9F34 and the bits for 95.
pub fn cvm_result_in(bytes: &[u8]) -> CvmResult
    ensures { result ≡ cvm_result_in bytes.now }
{
    if card_and_kernel_support_on_device_cvm(bytes) {
        return on_device_result(bytes);
    }
    let aip = byte_in(bytes, dictionary::ROW_AIP);
    let list = store::value_if_present(bytes, dictionary::ROW_CVM_LIST);
    cvm::perform_cvm(aip, list, cvm_conditions_in(bytes))
}

// The three pairs of action codes.
pub fn action_codes_of(bytes: &[u8]) -> [ActionCodes; 3]
    ensures { result ≡ action_codes_of bytes.now }
{
    [
        (
            DENIAL,
            dictionary::ROW_IAC_DENIAL,
            dictionary::ROW_TAC_DENIAL,
        ),
        (
            ONLINE,
            dictionary::ROW_IAC_ONLINE,
            dictionary::ROW_TAC_ONLINE,
        ),
        (
            DEFAULT,
            dictionary::ROW_IAC_DEFAULT,
            dictionary::ROW_TAC_DEFAULT,
        ),
    ]
    .map(|(stage, card, terminal)| action_codes_in(bytes, stage, card, terminal))
}

// What is requested for a TVR.
pub fn choice_for_tvr(bytes: &[u8], res: [u8; 5]) -> Choice
    ensures choice { result ≡ choice_for_tvr bytes.now res }
    ensures number { generate_ac_p1 result ≡ generate_ac_p1_for res (terminal_type bytes.now) (action_codes_of bytes.now) }
{
    choice::terminal_action_analysis(res, terminal_type(bytes), action_codes_of(bytes))
}

// The amount is above a limit; an equal one is not.
pub fn stored_amount_above_limit(bytes: &[u8], limit: u64) -> bool
    ensures { result ≡ stored_amount_above_limit limit bytes.now }
{
    limit < digits::amount_of(store::value(bytes, dictionary::ROW_AMOUNT))
}

// The Reader Contactless Transaction Limit of this session: on-device CVM has its own.
pub fn transaction_limit(bytes: &[u8]) -> u64
    ensures { result ≡ transaction_limit bytes.now }
{
    let row = if card_and_kernel_support_on_device_cvm(bytes) {
        dictionary::ROW_LIMIT_ON_DEVICE_CVM
    } else {
        dictionary::ROW_LIMIT_NO_ON_DEVICE_CVM
    };
    digits::amount_of(store::value(bytes, row))
}

// A device with on-device CVM, by the AIP and the terminal's configuration.
pub fn card_and_kernel_support_on_device_cvm(bytes: &[u8]) -> bool
    ensures { result ≡ card_and_kernel_support_on_device_cvm bytes.now }
{
    cvm::supports_on_device_cvm(
        byte_in(bytes, dictionary::ROW_AIP),
        byte_in(bytes, dictionary::ROW_KERNEL_CONFIGURATION),
    )
}

// The terminal's type, 0 where it is absent.
pub fn terminal_type(bytes: &[u8]) -> u8
    ensures { result ≡ terminal_type bytes.now }
{
    byte_in(bytes, dictionary::ROW_TERMINAL_TYPE)
}

// Byte 2: version, dates and usage.
fn restrictions_byte(bytes: &[u8]) -> u8
    ensures { result ≡ restrictions_tvr_byte2 bytes.now }
{
    let today = store::value(bytes, dictionary::ROW_TRANSACTION_DATE);
    let expired = digits::first_date_is_later(
        today,
        store::value(bytes, dictionary::ROW_EXPIRATION_DATE),
    );
    restrictions::tvr_byte2(
        version_differs_in(bytes),
        expired,
        not_yet_effective_in(bytes),
        auc_violated_in(bytes),
    )
}

// Byte 2 b8: the card's application version is present and differs from the reader's.
// Kept: it reads two objects for one test, as `not_yet_effective_in` and `country_in` do for theirs; one function of both
// rows and the test would be called with as many words.
fn version_differs_in(bytes: &[u8]) -> bool
    ensures { result ≡ card_version_present_and_differs (object_value bytes.now 0x9F08) (stored_bytes bytes.now 0x9F09) }
{
    restrictions::version_differs(
        store::value_if_present(bytes, dictionary::ROW_CARD_VERSION),
        store::value(bytes, dictionary::ROW_READER_VERSION),
    )
}

// Byte 2 b6: the effective date is present and later than the transaction date.
fn not_yet_effective_in(bytes: &[u8]) -> bool
    ensures { result ≡ not_yet_effective (object_value bytes.now 0x5F25) (stored_bytes bytes.now 0x9A) }
{
    restrictions::not_yet_effective(
        store::value_if_present(bytes, dictionary::ROW_EFFECTIVE_DATE),
        store::value(bytes, dictionary::ROW_TRANSACTION_DATE),
    )
}

// Byte 2 b5: the application usage control is present and something needed is not met.
fn auc_violated_in(bytes: &[u8]) -> bool
    ensures { result ≡ auc_violated_in_store bytes.now }
{
    restrictions::auc_violated(
        store::value_if_present(bytes, dictionary::ROW_AUC),
        atm_in(bytes),
        country_in(bytes),
        byte_in(bytes, dictionary::ROW_TRANSACTION_TYPE),
        cashback_in(bytes),
    )
}

// At an ATM, by the terminal's type and additional capabilities.
fn atm_in(bytes: &[u8]) -> bool
    ensures { result ≡ is_atm_type_with_cash_capability (terminal_type bytes.now) (object_value bytes.now 0x9F40) }
{
    restrictions::is_atm_type_with_cash_capability(
        terminal_type(bytes),
        store::value_if_present(bytes, dictionary::ROW_ADDITIONAL_CAPABILITIES),
    )
}

// The issuer's country against the terminal's.
fn country_in(bytes: &[u8]) -> IssuerCountryMatch
    ensures { result ≡ issuer_country_match (object_value bytes.now 0x5F28) (stored_bytes bytes.now 0x9F1A) }
{
    restrictions::issuer_country_match(
        store::value_if_present(bytes, dictionary::ROW_ISSUER_COUNTRY),
        store::value(bytes, dictionary::ROW_TERMINAL_COUNTRY),
    )
}

// Cashback is requested, by the other amount.
fn cashback_in(bytes: &[u8]) -> bool
    ensures { result ≡ cashback_requested (object_value bytes.now 0x9F03) }
{
    restrictions::cashback_requested(store::value_if_present(bytes, dictionary::ROW_AMOUNT_OTHER))
}

// What on-device CVM has verified: by the amount, against the Reader CVM Required Limit.
fn on_device_result(bytes: &[u8]) -> CvmResult
    ensures { result ≡ on_device_cvm_result_by_above_limit (first_amount_is_above (stored_bytes bytes.now 0x9F02) (stored_bytes bytes.now 0xDF8126)) }
{
    let amount = store::value(bytes, dictionary::ROW_AMOUNT);
    let required = store::value(bytes, dictionary::ROW_CVM_REQUIRED_LIMIT);
    cvm::on_device_cvm_result(digits::first_amount_is_above(amount, required))
}

// What the conditions of the CVM List's rules depend on.
fn cvm_conditions_in(bytes: &[u8]) -> CvmConditions
    ensures { result ≡ cvm_conditions_in bytes.now }
{
    let list = store::value(bytes, dictionary::ROW_CVM_LIST);
    let transaction = byte_in(bytes, dictionary::ROW_TRANSACTION_TYPE);
    let capabilities = store::value(bytes, dictionary::ROW_TERMINAL_CAPABILITIES);
    CvmConditions {
        capabilities: basics::byte_at(capabilities, 1),
        cash: is_cash(transaction),
        cashback: transaction == 0x09,
        atm: atm_in(bytes),
        currency: currency_in(bytes),
        amount: digits::amount_of(store::value(bytes, dictionary::ROW_AMOUNT)),
        x: byte::four_byte_number_at(list, 0),
        y: byte::four_byte_number_at(list, 4),
    }
}

// Cash, by the transaction's type.
fn is_cash(transaction: u8) -> bool
    ensures { result ≡ is_one_of transaction 0x01 0x17 }
{
    matches!(transaction, 0x01 | 0x17)
}

// The transaction's currency is the application's, and both are present.
fn currency_in(bytes: &[u8]) -> bool
    ensures { result ≡ currencies_present_and_equal (object_value bytes.now 0x5F2A) (object_value bytes.now 0x9F42) }
{
    let transaction = store::value_if_present(bytes, dictionary::ROW_TRANSACTION_CURRENCY);
    let application = store::value_if_present(bytes, dictionary::ROW_APPLICATION_CURRENCY);
    match (transaction, application) {
        (Some(transaction), Some(application)) => transaction == application,
        _ => false,
    }
}

// The five bytes of 95, with the verification's bits in bytes 1 and 3.
fn tvr_with_cvm(bytes: &[u8], tvr1: u8, tvr3: u8) -> [u8; 5]
    requires { (tvr1 ≡ (cvm_result_in bytes.now).tvr1) × (tvr3 ≡ (cvm_result_in bytes.now).tvr3) }
    ensures { result ≡ tvr_with_cvm bytes.now }
{
    let mut result = tvr_before_cvm(bytes);
    result[0] += tvr1;
    result[2] += tvr3;
    result
}

// The pair of a stage, from the rows of the card's code and the terminal's.
fn action_codes_in(bytes: &[u8], stage: usize, card: usize, terminal: usize) -> ActionCodes
    ensures { result ≡ action_codes_at stage (row_value dictionary_rows bytes.now card) (bytes_or_empty_if_absent (row_value dictionary_rows bytes.now terminal)) }
{
    choice::action_codes(
        stage,
        store::value_if_present(bytes, card),
        store::value(bytes, terminal),
    )
}

// The first byte of a row's value, 0 where there is none.
fn byte_in(bytes: &[u8], row: usize) -> u8
    ensures { result ≡ get_or (bytes_or_empty_if_absent (row_value dictionary_rows bytes.now row)) 0 0 }
{
    basics::byte_at(store::value(bytes, row), 0)
}
