// Cardholder verification: the CVM by the CVM List, or with on-device CVM by the amount; the bytes of 9F34, and the
// bits that it adds to 95.
#![tactic(auto, using(crate::proofs::Tests::choices), unfolding(crate::specs::Cvm::cvm_supported, crate::specs::Cvm::cvm_recognised, crate::specs::Cvm::cvm_condition_met, crate::specs::Cvm::cvm_result_of_supported, crate::specs::Cvm::cvm_result_of_unsuccessful, crate::specs::Cvm::cvm_rules_from_pairs, crate::specs::Cvm::cvm_result_by_rules, crate::specs::Cvm::cvm_processing, crate::specs::Cvm::aip_and_configuration_support_on_device_cvm, crate::specs::Cvm::on_device_cvm_result_by_above_limit))]

ghost use Rattle.std.specs.Prelude.{◌≡◌, false, option_copied};
ghost use Rattle.store.specs.Place.{stored_value_of};
ghost use Rattle.analysis.specs.Cvm.{cvm_number, cvm_recognised as is_recognised, cvm_supported as is_supported, cvm_supported_not_fail, cvm_condition_met as is_met};
ghost use Rattle.analysis.specs.Inner.{cvm_amount_condition_met};
ghost use Rattle.analysis.specs.Cvm.{cvm_result as result_of, cvm_rules_from_pairs, cvm_result_of_supported as taken_by, cvm_result_no_rule_succeeded, cvm_result_of_unsuccessful as unsuccessful_by, next_cvm_rule_applies, cvm_result_not_performed, cvm_result_by_rules, cvm_processing};
ghost use Rattle.analysis.specs.Cvm.{aip_and_configuration_support_on_device_cvm, on_device_cvm_result_by_above_limit};

use crate::byte;

// The CVMs that the outcome carries.
#[derive(Clone, Copy, PartialEq, Eq)]
pub enum Cvm {
    NoCvm,
    Signature,
    OnlinePin,
    ConfirmationCode,
    OfflinePin,
}

// What the conditions of the CVM List's rules depend on: byte 2 of the terminal capabilities; cash and cashback by
// the transaction's type; an ATM; whether terminal and application have the same currency; the amount, and the
// list's X and Y.
#[derive(Clone, Copy)]
pub struct CvmConditions {
    pub capabilities: u8,
    pub cash: bool,
    pub cashback: bool,
    pub atm: bool,
    pub currency: bool,
    pub amount: u64,
    pub x: u64,
    pub y: u64,
}

// What is chosen: the three bytes of 9F34, the bits of bytes 1 and 3 of 95, and the CVM.
#[derive(Clone, Copy)]
pub struct CvmResult {
    pub code: u8,
    pub condition: u8,
    pub result: u8,
    pub tvr1: u8,
    pub tvr3: u8,
    pub cvm: Cvm,
}

// The codes of the CVMs, b6 to b1 of a rule's first byte (Book C-2, Annex A; Book 3, Annex C3).
// Kept: numbers, as the card's list holds any code, and 9F34 repeats it.
const CVM_FAIL: u8 = 0x00;

const CVM_PLAINTEXT_PIN: u8 = 0x01;

const CVM_ONLINE_PIN: u8 = 0x02;

const CVM_PLAINTEXT_PIN_AND_SIGNATURE: u8 = 0x03;

const CVM_ENCIPHERED_PIN: u8 = 0x04;

const CVM_ENCIPHERED_PIN_AND_SIGNATURE: u8 = 0x05;

const CVM_SIGNATURE: u8 = 0x1E;

const CVM_NO_CVM: u8 = 0x1F;

// The codes of the conditions, a rule's second byte.
const ALWAYS: u8 = 0;

const UNATTENDED_CASH: u8 = 1;

const NOT_CASH: u8 = 2;

const CVM_SUPPORTED: u8 = 3;

const MANUAL_CASH: u8 = 4;

const CASHBACK: u8 = 5;

const UNDER_X: u8 = 6;

const OVER_X: u8 = 7;

const UNDER_Y: u8 = 8;

const OVER_Y: u8 = 9;

// CVM Results: byte 1 where no CVM was performed, and the results of byte 3.
const CODE_NOT_PERFORMED: u8 = 0x3F;

const RESULT_UNKNOWN: u8 = 0;

const RESULT_FAILED: u8 = 1;

const RESULT_SUCCESSFUL: u8 = 2;

// The number in the outcome where no CVM was chosen.
pub const NOT_APPLICABLE: u8 = 15;

// The CVM's number in the outcome.
// Kept: no `From<Cvm> for u8` beside it, which would hide which of a CVM's numbers is meant: this one or its code.
pub fn cvm_number(cvm: Cvm) -> u8
    ensures { result ≡ cvm_number cvm }
{
    match cvm {
        Cvm::NoCvm => 0,
        Cvm::Signature => 1,
        Cvm::OnlinePin => 2,
        Cvm::ConfirmationCode => 3,
        Cvm::OfflinePin => 4,
    }
}

// By byte 1 of the AIP (82), the CVM List (8E), which may be absent, and the terms.
pub fn perform_cvm(aip: u8, list: Option<&[u8]>, terms: CvmConditions) -> CvmResult
    ensures { result ≡ cvm_processing aip (stored_value_of (option_copied list.entry)) terms }
{
    if !byte::byte_has_bit(aip, 5) {
        return cvm_not_performed(false);
    }
    match list {
        Some(list) if !list.is_empty() => by_cvm_rules(list.get(8..).unwrap_or(&[]), terms),
        _ => cvm_not_performed(true),
    }
}

// A device with on-device CVM: b2 of byte 1 of the AIP (82), and b6 of the kernel configuration DF811B.
pub fn supports_on_device_cvm(aip: u8, configuration: u8) -> bool
    ensures { result ≡ aip_and_configuration_support_on_device_cvm aip configuration }
{
    byte::byte_has_bit(aip, 2) && byte::byte_has_bit(configuration, 6)
}

// What on-device CVM has verified, by whether the amount is above the Reader CVM Required Limit.
pub fn on_device_cvm_result(above: bool) -> CvmResult
    ensures { result ≡ on_device_cvm_result_by_above_limit above }
{
    if above {
        cvm_result(
            CVM_PLAINTEXT_PIN,
            ALWAYS,
            RESULT_SUCCESSFUL,
            0,
            Cvm::ConfirmationCode,
        )
    } else {
        cvm_result(CODE_NOT_PERFORMED, ALWAYS, RESULT_SUCCESSFUL, 0, Cvm::NoCvm)
    }
}

// The three bytes of 9F34, byte 3 of 95, and the CVM; byte 1 of 95 gets no bit.
fn cvm_result(code: u8, condition: u8, res: u8, tvr3: u8, cvm: Cvm) -> CvmResult
    ensures { result ≡ result_of code condition res tvr3 cvm }
{
    CvmResult {
        code,
        condition,
        result: res,
        tvr1: 0,
        tvr3,
        cvm,
    }
}

// No verification is requested, since the card does not support it or its CVM List is missing.
fn cvm_not_performed(missing: bool) -> CvmResult
    ensures { result ≡ cvm_result_not_performed missing }
{
    CvmResult {
        tvr1: byte::weight_if_set(missing, 0x20),
        ..cvm_result(CODE_NOT_PERFORMED, ALWAYS, RESULT_UNKNOWN, 0, Cvm::NoCvm)
    }
}

// Rule after rule, each of two bytes.
#[tactic(auto, using(crate::proofs::Tests::choices, crate::proofs::CvmSteps::rule_steps), unfolding(crate::specs::Cvm::cvm_rules_from_pairs, crate::specs::Cvm::cvm_result_by_rules))]
fn by_cvm_rules(rules: &[u8], terms: CvmConditions) -> CvmResult
    ensures { result ≡ cvm_result_by_rules terms false (cvm_rules_from_pairs rules.now) }
{
    // Kept: a walk by a slice pattern, since the step asks the rest whether a rule follows; `chunks_exact(2)` would have
    // to be peeked at.
    let mut rest = rules;
    let mut unrecognised = false;
    while let [code, condition, next @ ..] = rest {
        rest = next;
        if cvm_condition_met(terms, *code, *condition) {
            if cvm_performed(terms.capabilities, *code) {
                return cvm_successful(*code, *condition, unrecognised);
            }
            unrecognised = unrecognised || !cvm_recognised(*code);
            if !next_cvm_applies(*code, rest) {
                return cvm_unsuccessful(*code, *condition, unrecognised);
            }
        }
    }
    no_cvm_performed(unrecognised)
}

// The next rule follows an unsuccessful one: b7 of the code indicates so, and there is one.
fn next_cvm_applies(code: u8, rest: &[u8]) -> bool
    ensures { result ≡ next_cvm_rule_applies code (cvm_rules_from_pairs rest.now) }
{
    rest.len() >= 2 && byte::byte_has_bit(code, 7)
}

// The condition of a rule is understood, has its data, and is true.
fn cvm_condition_met(terms: CvmConditions, code: u8, condition: u8) -> bool
    ensures { result ≡ is_met terms code condition }
{
    match condition {
        ALWAYS => true,
        UNATTENDED_CASH => terms.cash && terms.atm,
        NOT_CASH => !terms.cash && !terms.cashback,
        CVM_SUPPORTED => cvm_supported(terms.capabilities, code),
        MANUAL_CASH => terms.cash && !terms.atm,
        CASHBACK => terms.cashback,
        _ => terms.currency && cvm_amount_met(terms, condition),
    }
}

// The amount is under or over X or Y.
fn cvm_amount_met(terms: CvmConditions, condition: u8) -> bool
    ensures { result ≡ cvm_amount_condition_met terms condition }
{
    match condition {
        UNDER_X => terms.amount < terms.x,
        OVER_X => terms.x < terms.amount,
        UNDER_Y => terms.amount < terms.y,
        OVER_Y => terms.y < terms.amount,
        _ => false,
    }
}

// The terminal can perform what a code requires.
fn cvm_supported(capabilities: u8, code: u8) -> bool
    ensures { result ≡ is_supported capabilities code }
{
    match code % 64 {
        CVM_FAIL => true,
        CVM_PLAINTEXT_PIN => byte::byte_has_bit(capabilities, 8),
        CVM_ONLINE_PIN => byte::byte_has_bit(capabilities, 7),
        CVM_PLAINTEXT_PIN_AND_SIGNATURE => {
            byte::byte_has_bit(capabilities, 8) && byte::byte_has_bit(capabilities, 6)
        }
        CVM_ENCIPHERED_PIN => byte::byte_has_bit(capabilities, 5),
        CVM_ENCIPHERED_PIN_AND_SIGNATURE => {
            byte::byte_has_bit(capabilities, 5) && byte::byte_has_bit(capabilities, 6)
        }
        CVM_SIGNATURE => byte::byte_has_bit(capabilities, 6),
        CVM_NO_CVM => byte::byte_has_bit(capabilities, 4),
        _ => false,
    }
}

// A CVM that is supported, and not fail.
fn cvm_performed(capabilities: u8, code: u8) -> bool
    ensures { result ≡ cvm_supported_not_fail capabilities code }
{
    cvm_supported(capabilities, code) && code % 64 != CVM_FAIL
}

// A CVM of the Books' table.
fn cvm_recognised(code: u8) -> bool
    ensures { result ≡ is_recognised code }
{
    matches!(
        code % 64,
        CVM_FAIL..=CVM_ENCIPHERED_PIN_AND_SIGNATURE | CVM_SIGNATURE | CVM_NO_CVM
    )
}

// The CVM of a code is taken.
fn cvm_successful(code: u8, condition: u8, unrecognised: bool) -> CvmResult
    ensures { result ≡ taken_by code condition unrecognised }
{
    let tvr3 = byte::weight_if_set(unrecognised, 0x40);
    match code % 64 {
        CVM_ONLINE_PIN => cvm_result(code, condition, RESULT_UNKNOWN, tvr3 + 0x04, Cvm::OnlinePin),
        CVM_SIGNATURE => cvm_result(code, condition, RESULT_UNKNOWN, tvr3, Cvm::Signature),
        CVM_NO_CVM => cvm_result(code, condition, RESULT_SUCCESSFUL, tvr3, Cvm::NoCvm),
        _ => cvm_result(code, condition, RESULT_UNKNOWN, tvr3, Cvm::OfflinePin),
    }
}

// A rule is unsuccessful, and none follows.
fn cvm_unsuccessful(code: u8, condition: u8, unrecognised: bool) -> CvmResult
    ensures { result ≡ unsuccessful_by code condition unrecognised }
{
    if code % 64 == CVM_FAIL {
        CvmResult {
            code,
            condition,
            ..no_cvm_performed(unrecognised)
        }
    } else {
        no_cvm_performed(unrecognised)
    }
}

// No rule was taken.
fn no_cvm_performed(unrecognised: bool) -> CvmResult
    ensures { result ≡ cvm_result_no_rule_succeeded unrecognised }
{
    let tvr3 = 0x80 + byte::weight_if_set(unrecognised, 0x40);
    cvm_result(CODE_NOT_PERFORMED, ALWAYS, RESULT_FAILED, tvr3, Cvm::NoCvm)
}
