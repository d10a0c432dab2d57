//! The statuses by their numbers, and the numbers of what the program promises, which no edit of a constant can turn. Those of
//! keys and a server's limits, of heads and bodies, of files and of chunks stand with the crates that have them.
ghost use Rattle.std.specs.Prelude.{◌≡◌};
ghost use Rattle.kj_value.specs.declared.reading.TheConstants.{MAX_JSON_LEVELS as most_document_levels};
ghost use Rattle.object_reading.specs.declared.finalizers.TheConstants.{FINALIZERS as most_finalizers, FINALIZER_BYTES as most_finalizer_bytes};
ghost use Rattle.object_reading.specs.declared.labels.TheConstants.{KEY_NAME_BYTES as most_label_bytes};
ghost use Rattle.schema_reading.specs.declared.walk.TheConstants.{MAX_NESTING as most_nesting, MAX_NODES as most_nodes, MAX_DEFAULT_DEPTH as most_default_levels};
ghost use Rattle.crd_reading.specs.declared.places.TheConstants.{MIN_VERSIONS as least_versions, MAX_VERSIONS as most_versions, KIND_BYTES as most_kind_bytes};
ghost use Rattle.hub_cells.specs.declared.allowed.TheConstants.{STORED_LEVELS as most_object_levels};
ghost use Rattle.hub_rules.specs.declared.rules.TheConstants.{MAX_OBJECTS as most_object_rules};
ghost use Rattle.rule_reading.specs.declared.rules.TheConstants.{MAX_RULES as most_rules};
ghost use Rattle.kept_entries.specs.declared.reading.TheConstants.{KEPT_LEVELS as most_kept_levels};
ghost use Rattle.crd_meaning.specs.declared.limits.TheConstants.{MAX_MEASURE as most_measure};
ghost use Rattle.http_routes.specs.declared.query.TheConstants.{MOST_LIMIT_DIGITS as most_limit_digits};
ghost use Rattle.command_lines.specs.declared.numbers.TheConstants.{MOST_STEPS as most_steps};
ghost use Rattle.command_lines.specs.declared.service.TheConstants.{USUAL_WORKERS as usual_workers, MOST_WORKERS as most_workers, MOST_CONNECTIONS as most_connections};
ghost use Rattle.command_lines.specs.declared.turns.TheConstants.{MOST_TURNS as most_turns};
ghost use Rattle.review_batch.specs.declared.levels.TheConstants.{ANSWER_ROOM as most_answer_bytes};
ghost use Rattle.review_forms.specs.declared.levels.TheConstants.{REVIEW_LEVELS as most_review_levels};

use crate::input::MOST_INPUT_BYTES;
use crate::status::{
    BAD_ANSWER, BAD_INPUT, BAD_WORDS, CUT, DONE, LINK_FAILED, LISTEN_FAILED, NO_MEMORY,
    READ_FAILED, REFUSED, TOO_MANY, UNSETTLED, WRITE_FAILED,
};

/// The statuses.
pub fn statuses()
    ensures done { DONE ≡ 0 }
    ensures bad_words { BAD_WORDS ≡ 2 }
    ensures refused { REFUSED ≡ 3 }
    ensures bad_input { BAD_INPUT ≡ 4 }
    ensures read_failed { READ_FAILED ≡ 5 }
    ensures write_failed { WRITE_FAILED ≡ 6 }
    ensures no_memory { NO_MEMORY ≡ 7 }
    ensures listen_failed { LISTEN_FAILED ≡ 8 }
    ensures cut { CUT ≡ 9 }
    ensures too_many { TOO_MANY ≡ 10 }
    ensures link_failed { LINK_FAILED ≡ 11 }
    ensures bad_answer { BAD_ANSWER ≡ 12 }
    ensures unsettled { UNSETTLED ≡ 13 }
{}

/// The bounds on definitions, schemas, rules, objects and their texts, lists and reviews: numbers of things, bytes, digits and levels.
pub fn bounds()
    ensures versions { (least_versions ≡ 2) × (most_versions ≡ 8) }
    ensures kind { most_kind_bytes ≡ 63 }
    ensures schema { (most_nesting ≡ 32) × (most_nodes ≡ 1_024) × (most_default_levels ≡ 32) }
    ensures rules { (most_rules ≡ 64) × (most_object_rules ≡ 8) }
    ensures levels { (most_document_levels ≡ 100) × (most_object_levels ≡ 64) × (most_kept_levels ≡ 66) }
    ensures measure { most_measure ≡ 262_144 }
    ensures labels { most_label_bytes ≡ 63 }
    ensures documents { MOST_INPUT_BYTES ≡ 4_194_304 }
    ensures turns { most_turns ≡ 1_000 }
    ensures service { (usual_workers ≡ 2) × (most_workers ≡ 15) × (most_connections ≡ 1_000_000) }
    ensures steps { most_steps ≡ 100_000 }
    ensures lists { most_limit_digits ≡ 18 }
    ensures reviews { (most_review_levels ≡ 67) × (most_answer_bytes ≡ 67_108_864) }
    ensures finalizers { (most_finalizers ≡ 64) × (most_finalizer_bytes ≡ 317) }
{}
