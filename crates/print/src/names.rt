// Written by bin/dictionary from dictionary.tsv: change that table, and run it again.
//
// The names of data objects and of templates (Book C-2, annex A). A function has the tags up to the number in its name.
use crate::table::print_words_of_number;

// The name of a tag.
pub fn print_tag_name(rt: &impl Print, tag: u32) {
    if tag < 0x6000 {
        to_5fff(rt, tag);
    } else if tag < 0x9F40 {
        to_9f3f(rt, tag);
    } else if tag < 0x10000 {
        to_ffff(rt, tag);
    } else {
        private(rt, tag);
    }
}

fn to_5fff(rt: &impl Print, tag: u32) {
    print_words_of_number(
        rt,
        tag,
        b"
    50 Application Label
    56 Track 1 Data
    57 Track 2 Equivalent Data
    5A Application PAN
    6F File Control Information Template
    70 READ RECORD Response Message Template
    77 Response Message Template Format 2
    80 Response Message Template Format 1
    82 Application Interchange Profile
    84 DF Name
    87 Application Priority Indicator
    8C CDOL1
    8E CVM List
    8F CA Public Key Index (Card)
    90 Issuer Public Key Certificate
    94 Application File Locator
    95 Terminal Verification Results
    9A Transaction Date
    9C Transaction Type
    A5 File Control Information Proprietary Template
  5F24 Application Expiration Date
  5F25 Application Effective Date
  5F28 Issuer Country Code
  5F2A Transaction Currency Code
  5F2D Language Preference
  5F30 Service Code
  5F34 Application PAN Sequence Number
  5F36 Transaction Currency Exponent
  5F57 Account Type",
        b"unknown",
    );
}

fn to_9f3f(rt: &impl Print, tag: u32) {
    print_words_of_number(
        rt,
        tag,
        b"
  9F01 Acquirer Identifier
  9F02 Amount, Authorized (Numeric)
  9F03 Amount, Other (Numeric)
  9F07 Application Usage Control
  9F08 Application Version Number (Card)
  9F09 Application Version Number (Reader)
  9F0D Issuer Action Code - Default
  9F0E Issuer Action Code - Denial
  9F0F Issuer Action Code - Online
  9F10 Issuer Application Data
  9F11 Issuer Code Table Index
  9F12 Application Preferred Name
  9F15 Merchant Category Code
  9F16 Merchant Identifier
  9F1A Terminal Country Code
  9F1C Terminal Identification
  9F1D Terminal Risk Management Data
  9F1E Interface Device Serial Number
  9F1F Track 1 Discretionary Data
  9F20 Track 2 Discretionary Data
  9F21 Transaction Time
  9F24 Payment Account Reference
  9F26 Application Cryptogram
  9F27 Cryptogram Information Data
  9F32 Issuer Public Key Exponent
  9F33 Terminal Capabilities
  9F34 CVM Results
  9F35 Terminal Type
  9F36 Application Transaction Counter
  9F37 Unpredictable Number
  9F38 PDOL",
        b"unknown",
    );
}

fn to_ffff(rt: &impl Print, tag: u32) {
    print_words_of_number(
        rt,
        tag,
        b"
  9F40 Additional Terminal Capabilities
  9F42 Application Currency Code
  9F44 Application Currency Exponent
  9F46 ICC Public Key Certificate
  9F47 ICC Public Key Exponent
  9F4A Static Data Authentication Tag List
  9F4C ICC Dynamic Number
  9F4D Log Entry
  9F50 Offline Accumulator Balance
  9F51 DRDOL
  9F53 Transaction Category Code
  9F54 DS ODS Card
  9F5B DSDOL
  9F5C DS Requested Operator ID
  9F5D Application Capabilities Information
  9F5E DS ID
  9F5F DS Slot Availability
  9F60 CVC3 (Track1)
  9F61 CVC3 (Track2)
  9F62 PCVC3(Track1)
  9F63 PUNATC(Track1)
  9F64 NATC(Track1)
  9F65 PCVC3(Track2)
  9F66 PUNATC(Track2)
  9F67 NATC(Track2)
  9F69 UDOL
  9F6A Unpredictable Number (Numeric)
  9F6B Track 2 Data
  9F6D Mag-stripe Application Version Number (Reader)
  9F6E Third Party Data
  9F6F DS Slot Management Control
  9F70 Protected Data Envelope 1
  9F71 Protected Data Envelope 2
  9F72 Protected Data Envelope 3
  9F73 Protected Data Envelope 4
  9F74 Protected Data Envelope 5
  9F75 Unprotected Data Envelope 1
  9F76 Unprotected Data Envelope 2
  9F77 Unprotected Data Envelope 3
  9F78 Unprotected Data Envelope 4
  9F79 Unprotected Data Envelope 5
  9F7C Merchant Custom Data
  9F7D DS Summary 1
  9F7E Mobile Support Indicator
  9F7F DS Unpredictable Number
  BF0C File Control Information Issuer Discretionary Data
  DF4B POS Cardholder Interaction Information
  DF60 DS Input (Card)
  DF61 DS Digest H
  DF62 DS ODS Info
  DF63 DS ODS Term",
        b"unknown",
    );
}

fn private(rt: &impl Print, tag: u32) {
    print_words_of_number(
        rt,
        tag,
        b"
DF8101 DS Summary 2
DF8102 DS Summary 3
DF8104 Balance Read Before Gen AC
DF8105 Balance Read After Gen AC
DF8108 DS AC Type
DF8109 DS Input (Term)
DF810A DS ODS Info For Reader
DF810B DS Summary Status
DF810C Kernel ID
DF810E Post-Gen AC Put Data Status
DF810F Pre-Gen AC Put Data Status
DF8110 Proceed To First Write Flag
DF8114 Reference Control Parameter
DF8115 Error Indication
DF8116 User Interface Request Data
DF8117 Card Data Input Capability
DF8118 CVM Capability - CVM Required
DF8119 CVM Capability - No CVM Required
DF811A Default UDOL
DF811B Kernel Configuration
DF811C Max Lifetime of Torn Transaction Log Record
DF811D Max Number of Torn Transaction Log Records
DF811E Mag-stripe CVM Capability - CVM Required
DF811F Security Capability
DF8120 Terminal Action Code - Default
DF8121 Terminal Action Code - Denial
DF8122 Terminal Action Code - Online
DF8123 Reader Contactless Floor Limit
DF8124 Reader Contactless Transaction Limit (No On-device CVM)
DF8125 Reader Contactless Transaction Limit (On-device CVM)
DF8126 Reader CVM Required Limit
DF8127 Time Out Value
DF8128 IDS Status
DF8129 Outcome Parameter Set
DF812A DD Card (Track1)
DF812B DD Card (Track2)
DF812C Mag-stripe CVM Capability - No CVM Required
DF812D Message Hold Time
DF8130 Hold Time Value
DF8132 Minimum Relay Resistance Grace Period
DF8133 Maximum Relay Resistance Grace Period
DF8134 Terminal Expected Transmission Time For Relay Resistance C-APDU
DF8135 Terminal Expected Transmission Time For Relay Resistance R-APDU
DF8136 Relay Resistance Accuracy Threshold
DF8137 Relay Resistance Transmission Time Mismatch Threshold
DF8301 Terminal Relay Resistance Entropy
DF8302 Device Relay Resistance Entropy
DF8303 Min Time For Processing Relay Resistance APDU
DF8304 Max Time For Processing Relay Resistance APDU
DF8305 Device Estimated Transmission Time For Relay Resistance R-APDU
DF8306 Measured Relay Resistance Processing Time
DF8307 RRP Counter",
        b"unknown",
    );
}
