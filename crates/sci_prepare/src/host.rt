ghost use Rattle.std.specs.Prelude.{◌≡◌, ◌<◌, length};
ghost use Rattle.sci_answers.specs.Host.{host_text};

/// The host file: C99 that gives a generated program its `main`. With it a C compiler makes of the program a command that
/// takes an input file, the last date and the most events, and prints the trace. Nothing is claimed of its meaning.
const HOST: &str = concat!(
    "#include <stdint.h>\n",
    "#include <stdio.h>\n",
    "#include <stdlib.h>\n",
    "void sci_main(void);\n",
    "static long long until, limit;\n",
    "static int64_t *col[256];\n",
    "static long len[256], pos[256];\n",
    "void sci_start(void) { puts(\"start\"); }\n",
    "void sci_event(int64_t a, int64_t b, int64_t c) {\n",
    "  printf(\"event %lld %lld %lld\\n\", (long long)a, (long long)b, (long long)c);\n",
    "}\n",
    "void sci_val(int64_t a, int64_t b, int64_t c, int64_t d) {\n",
    "  printf(\"val %lld %lld %lld %lld\\n\", (long long)a, (long long)b, (long long)c, (long long)d);\n",
    "}\n",
    "void sci_end(int64_t a) {\n",
    "  static const char *w[] = {\"halt\", \"events\", \"empty\", \"until\"};\n",
    "  printf(\"end %s\\n\", w[a]);\n",
    "  exit(0);\n",
    "}\n",
    "void sci_stop(int64_t a, int64_t b, int64_t c) {\n",
    "  static const char *w[] = {\"overflow\", \"zero\", \"input\", \"conflict\"};\n",
    "  printf(\"stop %s %lld\", w[a], (long long)b);\n",
    "  if (a == 3) printf(\" %lld\", (long long)c);\n",
    "  printf(\"\\n\");\n",
    "  exit(6);\n",
    "}\n",
    "int64_t sci_more(int64_t a) { return a >= 1 && a <= 255 && pos[a] < len[a]; }\n",
    "int64_t sci_input(int64_t a) { return col[a][pos[a]++]; }\n",
    "int64_t sci_until(void) { return until; }\n",
    "int64_t sci_limit(void) { return limit; }\n",
    "int main(int argc, char **argv) {\n",
    "  FILE *f;\n",
    "  int c, depth = 0;\n",
    "  long n = 0;\n",
    "  long long v;\n",
    "  if (argc != 4) return 2;\n",
    "  until = strtoll(argv[2], NULL, 10);\n",
    "  limit = strtoll(argv[3], NULL, 10);\n",
    "  f = fopen(argv[1], \"r\");\n",
    "  if (f == NULL) return 3;\n",
    "  while ((c = fgetc(f)) != EOF) {\n",
    "    if (c == '[') {\n",
    "      depth++;\n",
    "      if (depth == 2) n++;\n",
    "    } else if (c == ']') {\n",
    "      depth--;\n",
    "    } else if (c == '-' || (c >= '0' && c <= '9')) {\n",
    "      ungetc(c, f);\n",
    "      if (fscanf(f, \"%lld\", &v) != 1 || n < 1) return 1;\n",
    "      if (n <= 255) {\n",
    "        col[n] = realloc(col[n], (size_t)(len[n] + 1) * sizeof(int64_t));\n",
    "        if (col[n] == NULL) return 5;\n",
    "        col[n][len[n]++] = v;\n",
    "      }\n",
    "    }\n",
    "  }\n",
    "  fclose(f);\n",
    "  sci_main();\n",
    "  return 0;\n",
    "}\n",
);

/// The host file's text.
#[tactic(auto, unfolding(sci_answers::specs::Host::host_text))]
pub fn host() -> &'static str
    ensures text { result.now ≡ host_text }
    ensures some { 0 < length result.now }
{
    HOST
}
