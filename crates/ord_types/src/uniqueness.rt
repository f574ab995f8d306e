//! Laws of the values' spellings. The call does nothing.
ghost use Rattle.ord_types.specs.Laws.{HasOneSpelling};
ghost use Rattle.ord_types.specs.Grammar.{
  HasBlockSpelling,
  HasCertSpelling,
  HasConfigSpelling,
  HasHeaderSpelling,
  HasMetaSpelling,
  HasReportSpelling,
  HasRequestSpelling,
  HasSigSpelling,
};
ghost use Rattle.ord_types.specs.Reading.{block_at, cert_at, config_at, header_at, meta_at, report_at, request_at, sig_at};
ghost use Rattle.ord_types.specs.Spelling.{
  block_text,
  cert_text,
  config_text,
  header_text,
  meta_text,
  report_text,
  request_text,
  sig_text,
};

/// Each value has one spelling: it is read again whatever follows, no spelling begins another one, and each proper
/// front of one is `Short`. A field that breaks its rule is told at the same place whatever follows it.
pub fn spellings_are_unique()
    ensures config { HasOneSpelling config_at HasConfigSpelling config_text }
    ensures request { HasOneSpelling request_at HasRequestSpelling request_text }
    ensures meta { HasOneSpelling meta_at HasMetaSpelling meta_text }
    ensures header { HasOneSpelling header_at HasHeaderSpelling header_text }
    ensures block { HasOneSpelling block_at HasBlockSpelling block_text }
    ensures sig { HasOneSpelling sig_at HasSigSpelling sig_text }
    ensures cert { HasOneSpelling cert_at HasCertSpelling cert_text }
    ensures report { HasOneSpelling report_at HasReportSpelling report_text }
{}
