ghost use Rattle.std.specs.Prelude.{◌≡◌, ◌*◌, pos};
ghost use Rattle.psa_elements.specs.declared.limits.TheConstants.{MAX_NAME, MAX_DIGITS as ARGUMENT_DIGITS};
ghost use Rattle.psa_load.specs.declared.document.TheConstants.{MAX_READS};
ghost use Rattle.psa_model.specs.declared.formula.TheConstants.{MAX_COUNTED_ARGUMENTS};
ghost use Rattle.psa_model.specs.declared.limits.TheConstants.{
  MAX_EVENTS,
  MAX_FILES,
  MAX_INSTRUCTIONS,
  MAX_MEMBERS,
  MAX_NESTING,
  MAX_PATHS,
  MAX_SAMPLE,
  MAX_SIZE,
  MIN_MEMBERS,
  MIN_SAMPLE,
};
ghost use Rattle.psa_model.specs.declared.model.TheConstants.{MAX_DEPTH};
ghost use Rattle.psa_model.specs.declared.product.TheConstants.{MAX_COUNT, MAX_ORDER};
ghost use Rattle.psa_number.specs.declared.limits.TheConstants.{
  MAX_DECIMAL,
  MAX_DIGITS,
  MAX_END,
  MAX_EXPONENT,
  MAX_EXPONENT_DIGITS,
  MAX_PLACE,
  MAX_TERM,
  UNITS,
};
ghost use Rattle.psa_text.specs.declared.limits.TheConstants.{
  MAX_ATTRIBUTES,
  MAX_DEPTH as ELEMENT_DEPTH,
  MAX_ELEMENTS,
  MAX_FILE_BYTES,
  MAX_NAME_BYTES,
  MAX_REFERENCE_DIGITS,
  MAX_VALUE_BYTES,
};
ghost use Rattle.psa_words.specs.declared.limits.TheConstants.{
  DEFAULT_LIMIT_ORDER,
  DEFAULT_MISSION_TIME,
  MAX_DIGITS as WHOLE_NUMBER_DIGITS,
  MAX_LIMIT_ORDER,
  MAX_NODE_LIMIT,
};

/// Each limit by its number. Definitions and clauses cite the constants; here is what they are, so that one of them
/// does not change unseen. The numbers are this project's own.
pub fn limits_are_as_stated()
    // Of a text: bytes, elements, elements in one another, bytes of a name and of a value, attributes of a tag,
    // digits of a reference to a character.
    ensures file_bytes { MAX_FILE_BYTES ≡ 67108864 }
    ensures elements { MAX_ELEMENTS ≡ 1000000 }
    ensures element_depth { ELEMENT_DEPTH ≡ 64 }
    ensures markup_name { MAX_NAME_BYTES ≡ 64 }
    ensures value_bytes { MAX_VALUE_BYTES ≡ 512 }
    ensures attributes { MAX_ATTRIBUTES ≡ 32 }
    ensures reference_digits { MAX_REFERENCE_DIGITS ≡ 8 }

    // Of a model: files, bytes of a name, digits of `min`, `max` and `level`, arguments of `atleast` and
    // `cardinality`, members of a group, depth of a definition, levels of a body, definitions with members and
    // collected formulas.
    ensures files { MAX_FILES ≡ 16 }
    ensures name { MAX_NAME ≡ 128 }
    ensures argument_digits { ARGUMENT_DIGITS ≡ 4 }
    ensures counted_arguments { MAX_COUNTED_ARGUMENTS ≡ 1024 }
    ensures fewest_members { MIN_MEMBERS ≡ 2 }
    ensures most_members { MAX_MEMBERS ≡ 8 }
    ensures depth { MAX_DEPTH ≡ 500 }
    ensures nesting { MAX_NESTING ≡ 64 }
    ensures size { MAX_SIZE ≡ 16000000 }

    // Of paths and targets: instructions of a path, paths of a model, events of a target.
    ensures instructions { MAX_INSTRUCTIONS ≡ 256 }
    ensures paths { MAX_PATHS ≡ 65536 }
    ensures events { MAX_EVENTS ≡ 2048 }

    // Of numbers: units in 1, the greatest end of an interval, the greatest decimal with its digits and its exponent
    // with its digits, terms of the exponential, its greatest place.
    ensures units { UNITS ≡ 1000000000000 }
    ensures end { MAX_END ≡ 1000000000000000000 }
    ensures decimal { MAX_DECIMAL ≡ 1000000 }
    ensures digits { MAX_DIGITS ≡ 36 }
    ensures exponent { MAX_EXPONENT ≡ pos 99 }
    ensures exponent_digits { MAX_EXPONENT_DIGITS ≡ 4 }
    ensures terms { MAX_TERM ≡ 160 }
    ensures place { MAX_PLACE ≡ 28 * 1000000000000 }

    // Of words and reports: the order limit and its default, the mission time where none is given, digits of a whole
    // number, the node limit, the sizes of the sample, what counts are held at.
    ensures limit_order { MAX_LIMIT_ORDER ≡ 32 }
    ensures order { MAX_ORDER ≡ 32 }
    ensures default_order { DEFAULT_LIMIT_ORDER ≡ 20 }
    ensures default_mission { DEFAULT_MISSION_TIME ≡ 8760 }
    ensures whole_number_digits { WHOLE_NUMBER_DIGITS ≡ 13 }
    ensures node_limit { MAX_NODE_LIMIT ≡ 1000000000000 }
    ensures least_sample { MIN_SAMPLE ≡ 2 }
    ensures greatest_sample { MAX_SAMPLE ≡ 1000 }
    ensures count { MAX_COUNT ≡ 1000000000000000000 }

    // Of a file: reads.
    ensures reads { MAX_READS ≡ 67108865 }
{}
