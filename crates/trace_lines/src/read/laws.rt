//! What readers do by law: lines that are read out, and that each request can be read.
ghost use Rattle.std.specs.Prelude.{◌≡◌, ℕ, [], ◌∷◌, false, Ok, Err, Some, None, codes};
ghost use Rattle.otel_state.specs.Settings.{default_settings};
ghost use Rattle.trace_lines.specs.forms.Forms.{object_of};
ghost use Rattle.trace_lines.specs.values.RequestData.{IsInRange, request_of, request_data};
ghost use Rattle.trace_lines.specs.forms.RequestForm.{request_form};
ghost use Rattle.trace_lines.specs.reading.Spelled.{settings_spelled, request_spelled};
ghost use Rattle.trace_lines.specs.declared.told.Told.{Told};
ghost use Rattle.span_script.specs.declared.request.Call.{Call as AnyCall};

use crate::told::Told;
use span_script::request::Call;
use trace_base::callsite::Kind;
use trace_base::level::Level;

/// A line that enters a span, and the same line with a member too many.
pub fn enter_line()
    ensures read { request_spelled (codes "{\"at\":5,\"lane\":0,\"do\":\"enter\",\"handle\":3}")
        ≡ Ok (request_of 5 0 (Call.Enter 3)) }
    ensures refused { request_spelled (codes "{\"at\":5,\"lane\":0,\"do\":\"enter\",\"handle\":3,\"name\":\"a\"}")
        ≡ Err Told.BadLine }
{}

/// A settings line, with one callsite and two lanes.
pub fn settings_line()
    ensures { settings_spelled (codes "{\"callsites\":[{\"name\":\"s\",\"target\":\"app\",\"level\":\"warn\",\"kind\":\"span\",\"fields\":[\"a\"],\"file\":\"f\",\"module\":\"m\",\"line\":7}],\"counting\":\"warn\",\"filter\":\"info\",\"lanes\":[{\"id\":4,\"name\":\"main\"},{\"id\":2}],\"layer\":{\"location\":false,\"target\":false,\"threads\":false}}") ≡ Ok (record {
      filter = codes "info";
      counting = Some (codes "warn");
      lanes = (4, Some (codes "main")) ∷ (2, None) ∷ [];
      callsites = record {
        name = codes "s";
        target = codes "app";
        level = Level.WARN;
        kind = Kind.Span;
        file = Some (codes "f");
        module_path = Some (codes "m");
        line = Some 7;
        fields = codes "a" ∷ [];
      } ∷ [];
      layer = record default_settings { location = false; target = false; threads = false };
    }) }
{}

/// Each request, on whatever lane, with ids, numbers and times in their ranges, has a value that is read as it.
pub fn every_request()
    ensures { (at lane : ℕ) (call : AnyCall) → IsInRange call
        → object_of request_form (request_data (request_of at lane call)) ≡ Some (request_of at lane call) }
{}
