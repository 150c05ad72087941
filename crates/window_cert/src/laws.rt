//! Laws of the spelling. A call does nothing: its contract is the law.
ghost use Rattle.window_cert.specs.Bytes.{CertSpellingIsOne};
ghost use Rattle.window_cert.specs.Faults.{FaultsSpellNone, FaultIsOne};

/// A certificate has one spelling, bytes spell one certificate, and no spelling begins another.
pub fn cert_spelling_is_one()
    ensures { CertSpellingIsOne }
{}

/// Bytes with a fault spell no certificate, and their fault has one place.
pub fn faults_spell_none()
    ensures none { FaultsSpellNone }
    ensures one { FaultIsOne }
{}
